ghost use Rattle.std.specs.Prelude.{◌≡◌, ℕ, List, IfOk, OnOk};
ghost use Rattle.ja_writable.specs.InnerJudging.{IsSmall, IsBegun, IsMore, IsStep, IsNoPlace};

use indexmap::IndexMap;
use ja_assembly::{labels_of, size_of};
use ja_base::{Memory, Name};
use ja_listing::Item;
use std::alloc::Global;

/// What is known of the items before one.
#[derive(Drop)]
pub(crate) struct Place {
    /// The numbers of fields and of methods.
    pub fields: u64,
    pub methods: u64,
    /// The number of entries of the exception table of the last method.
    pub ranges: u64,
    /// Where its next instruction begins.
    pub pc: u64,
    /// Whether it has code by its flags.
    pub has_code: bool,
    /// Where its labels stand, those of later items too.
    pub labels: IndexMap<Name, u64>,
}

/// The bytes of the code of a constructor that only calls that of the superclass.
const INITIALIZER: u64 = 5;

impl Place {
    /// The place before these items, which are all.
    pub fn new(alloc: Global, items: &[Item]) -> Result<Place, Memory>
        ensures { IfOk result (IsNoPlace items.now) }
    {
        let labels = labels_of(alloc, 0, items)?;
        Ok(Place {
            fields: 0,
            methods: 0,
            ranges: 0,
            pc: 0,
            has_code: false,
            labels,
        })
    }

    /// A method begins, whose next instruction begins at pc.
    fn begin(&mut self, alloc: Global, pc: u64, code: bool, behind: &[Item]) -> Result<(), Memory>
        requires { IsSmall self.old }
        ensures { OnOk result ((superclass : List ℕ) → IsBegun pc code superclass behind.now self.old self.new) }
    {
        self.labels = labels_of(alloc, pc, behind)?;
        self.methods += 1;
        self.ranges = 0;
        self.pc = pc;
        self.has_code = code;
        Ok(())
    }

    /// The place behind an item.
    pub fn enter(&mut self, alloc: Global, item: &Item, behind: &[Item]) -> Result<(), Memory>
        requires { IsSmall self.old }
        ensures { OnOk result ((superclass : List ℕ) → IsStep superclass item.now behind.now self.old self.new) }
    {
        match item {
            Item::Field { .. } => {
                self.fields += 1;
                Ok(())
            }
            Item::Method { flags, .. } => self.begin(alloc, 0, flags.has_code(), behind),
            Item::Initializer => self.begin(alloc, INITIALIZER, true, behind),
            Item::Try { .. } => {
                self.ranges += 1;
                Ok(())
            }
            Item::Instruction { opcode, .. } => {
                self.pc += size_of(*opcode);
                Ok(())
            }
        }
    }
}
