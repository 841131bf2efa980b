use indexmap::IndexSet;
use ja_base::{Flags, Name, Numbers, Seq};
use ja_ir::ClassHead;
use ja_sets::TokenSet;

/// The tables behind the classes. Each has one item for each class, and names classes by their places.
#[derive(Drop)]
pub struct Tables {
    pub heads: Seq<ClassHead>,
    /// The names, each at the place of its class.
    pub names: IndexSet<Name>,
    /// The direct superclass, where it is a program class.
    pub superclasses: Seq<Option<u32>>,
    /// The direct supertypes that are program classes: superinterfaces in declared order, then the
    /// superclass.
    pub direct: Seq<Numbers>,
    /// The proper supertypes, as bits.
    pub above: Seq<TokenSet>,
    /// The proper supertypes, as a list.
    pub supertypes: Seq<Numbers>,
    /// The proper superclasses, as bits.
    pub above_superclasses: Seq<TokenSet>,
    /// The proper superinterfaces, as bits.
    pub superinterfaces: Seq<TokenSet>,
    /// Whether a library class other than `java/lang/Object` is above the class.
    pub foreign: Flags,
    /// The last class on the way up the superclasses.
    pub tops: Numbers,
}
