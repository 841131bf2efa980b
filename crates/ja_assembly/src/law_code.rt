ghost use Rattle.std.specs.Prelude.{codes};
ghost use Rattle.ja_pool.specs.Table.{Table};
ghost use Rattle.ja_attributes.specs.Attribute.{IsAttribute, code_bytes};
ghost use Rattle.ja_listing.specs.declared.item.Frame.{Frame};
ghost use Rattle.ja_assembly.specs.Members.{Body};
ghost use Rattle.ja_assembly.specs.Assembled.{Pool, text_index, code_of};
ghost use Rattle.ja_assembly.specs.Written.{SaysAttribute};
ghost use Rattle.ja_assembly.specs.Right.{IsRightPool, IsRightCode};

/// The attribute that is written of a method with code is one of the profile, and says what is listed (JVM
/// specification 4.7.3).
pub fn law_code_attribute()
    ensures attribute { (pool : Pool) (table : Table) (b : Body) (frame : Frame) → IsRightPool pool table → IsRightCode pool b.instructions b.ranges frame
        → IsAttribute table (record { attribute_name_index = text_index pool (codes "Code"); info = code_bytes (code_of pool b.instructions b.ranges frame) }) }
    ensures says { (pool : Pool) (table : Table) (b : Body) (frame : Frame) → IsRightPool pool table → IsRightCode pool b.instructions b.ranges frame
        → SaysAttribute table b frame (record { attribute_name_index = text_index pool (codes "Code"); info = code_bytes (code_of pool b.instructions b.ranges frame) }) }
{}
