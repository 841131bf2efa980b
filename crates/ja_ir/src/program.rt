ghost use Rattle.std.specs.Prelude.{◌≡◌, []};

use crate::{ClassInfos, Entries, Fields, Methods, Sites};
use ja_base::{Names, Seq};
use std::alloc::Global;
use std::marker::Model;

/// The lists of which a program is made. The number of a class, method or field is its place.
#[derive(Drop)]
pub struct Parts {
    pub classes: ClassInfos,
    pub methods: Methods,
    pub fields: Fields,
    /// The methods that the environment may call.
    pub entries: Entries,
    /// The sink calls, in the order of the report.
    pub sites: Sites,
    /// The names of the categories of marks; none where there is one category, which has no name.
    pub categories: Names,
}

/// A whole program: each number in it names something, descriptors agree with what they describe,
/// and each instruction that is reached finds its operands.
#[derive(Drop)]
pub struct Program {
    parts: Parts,
}

impl Model for Program {
    ghost use Rattle.ja_ir.specs.declared.program.Parts.{Parts};

    ghost Value = { Parts };

    ghost use Rattle.ja_ir.specs.Whole.{IsWhole};

    ghost view = { λ program. program.parts };

    ghost invariant = { λ program. IsWhole program.parts };
}

impl Program {
    ghost use Rattle.ja_ir.specs.Whole.{IsWhole};

    /// The program of these lists. It takes no memory.
    pub fn new(
        classes: ClassInfos,
        methods: Methods,
        fields: Fields,
        entries: Entries,
        sites: Sites,
        categories: Names,
    ) -> Program
        requires { IsWhole (record { classes = classes; methods = methods; fields = fields; entries = entries; sites = sites; categories = categories }) }
        ensures { result ≡ record { classes = classes; methods = methods; fields = fields; entries = entries; sites = sites; categories = categories } }
    {
        Program {
            parts: Parts {
                classes,
                methods,
                fields,
                entries,
                sites,
                categories,
            },
        }
    }

    /// The program without classes, as a folder without class files spells it. It takes no memory.
    pub fn empty(alloc: Global) -> Program
        ensures { result ≡ record { classes = []; methods = []; fields = []; entries = []; sites = []; categories = [] } }
    {
        let entries = Seq::new(alloc);
        Program::new(
            Seq::new(alloc),
            Seq::new(alloc),
            Seq::new(alloc),
            entries,
            Seq::new(alloc),
            Seq::new(alloc),
        )
    }

    /// The lists of the program.
    pub fn parts(&self) -> &Parts
        ensures same { result.now ≡ self.now }
        ensures whole { IsWhole result.now }
    {
        &self.parts
    }

    /// The program classes.
    pub fn classes(&self) -> &ClassInfos
        ensures same { result.now ≡ self.now.classes }
        ensures whole { IsWhole self.now }
    {
        &self.parts.classes
    }

    /// The methods of the program classes.
    pub fn methods(&self) -> &Methods
        ensures same { result.now ≡ self.now.methods }
        ensures whole { IsWhole self.now }
    {
        &self.parts.methods
    }

    /// The fields of the program classes.
    pub fn fields(&self) -> &Fields
        ensures same { result.now ≡ self.now.fields }
        ensures whole { IsWhole self.now }
    {
        &self.parts.fields
    }

    /// The methods that the environment may call.
    pub fn entries(&self) -> &Entries
        ensures same { result.now ≡ self.now.entries }
        ensures whole { IsWhole self.now }
    {
        &self.parts.entries
    }

    /// The sink calls, in the order of the report.
    pub fn sites(&self) -> &Sites
        ensures same { result.now ≡ self.now.sites }
        ensures whole { IsWhole self.now }
    {
        &self.parts.sites
    }

    /// The names of the categories of marks; none where there is one category, which has no name.
    pub fn categories(&self) -> &Names
        ensures same { result.now ≡ self.now.categories }
        ensures whole { IsWhole self.now }
    {
        &self.parts.categories
    }
}
