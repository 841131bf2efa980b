ghost use Rattle.ja_listing.specs.Listed.{Listed};
ghost use Rattle.ja_assembly.specs.Unwritable.{IsWritable};
ghost use Rattle.ja_assembly.specs.Right.{IsRightClass};

/// A class whose items can all be written is right in each of its parts.
pub fn law_right_items()
    ensures { (c : Listed) → IsWritable c → IsRightClass c }
{}
