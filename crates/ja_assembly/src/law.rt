ghost use Rattle.std.specs.Prelude.{◌≡◌, ◌+◌, ℕ, List, Option};
ghost use Rattle.ja_base.specs.declared.java_type.JavaType.{JavaType};
ghost use Rattle.ja_base.specs.Descriptor.{IsMethod, words_of_all};
ghost use Rattle.ja_class.specs.ClassFile.{spelling};
ghost use Rattle.ja_listing.specs.Listed.{Listed};
ghost use Rattle.ja_assembly.specs.Arguments.{argument_words};
ghost use Rattle.ja_assembly.specs.Unwritable.{IsWritable};
ghost use Rattle.ja_assembly.specs.Assembled.{file_of};
ghost use Rattle.ja_assembly.specs.Written.{IsWritten};

use crate::law_code::law_code_attribute;
use crate::law_items::law_right_items;
use crate::law_pool::law_right_pool;

/// The words that a call of an interface's method tells are those of the parameters in the grammar of
/// descriptors, and one for the receiver (JVM specification 4.3.3, and 6.5 at `invokeinterface`).
pub fn law_argument_words()
    ensures { (desc : List ℕ) (params : List JavaType) (result : Option JavaType) → IsMethod desc params result → argument_words desc ≡ 1 + words_of_all params }
{}

/// Where each item of a listed class can be written, the bytes of its class file are one of the profile, which
/// says what is listed (JVM specification 4.1 to 4.7).
pub fn law_written()
    ensures { (c : Listed) → IsWritable c → IsWritten c (spelling (file_of c)) }
{
    law_right_items();
    law_right_pool();
    law_code_attribute();
}
