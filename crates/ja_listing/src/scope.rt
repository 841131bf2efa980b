ghost use Rattle.std.specs.Prelude.{◌≡◌, ℕ, List, [], ◌∷◌, true, false, OnOk};
ghost use Rattle.ja_listing.specs.declared.item.Line.{Line};
ghost use Rattle.ja_listing.specs.InnerScope.{has, has_given, allows_item, allows, IsScope};

use crate::{Item, Line};
use indexmap::IndexSet;
use ja_base::{Memory, Name};
use std::alloc::Global;

/// What the items so far say of where another may stand.
#[derive(Drop)]
pub(crate) struct Scope {
    /// Whether a class was begun.
    in_class: bool,
    /// Whether the last class has a method.
    in_method: bool,
    /// The labels of the last method.
    labels: IndexSet<Name>,
}

impl Scope {
    /// The scope of no items. It takes no memory.
    pub(crate) fn new(alloc: Global) -> Scope
        ensures { IsScope [] result }
    {
        Scope {
            in_class: false,
            in_method: false,
            labels: IndexSet::new(alloc),
        }
    }

    fn has(&self, label: &Name) -> bool
        ensures { result ≡ has self.now.labels label.now }
    {
        self.labels.contains(label)
    }

    fn has_given(&self, label: &Option<Name>) -> bool
        ensures { result ≡ has_given self.now.labels label.now }
    {
        match label {
            None => false,
            Some(name) => self.has(name),
        }
    }

    fn allows_item(&self, item: &Item) -> bool
        ensures { result ≡ allows_item self.now item.now }
    {
        match item {
            Item::Field { .. } | Item::Method { .. } | Item::Initializer => self.in_class,
            Item::Try { .. } => self.in_method,
            Item::Instruction { label, .. } => self.in_method && !self.has_given(label),
        }
    }

    /// Whether an item may stand behind those of the scope.
    pub(crate) fn allows(&self, line: &Line) -> bool
        ensures { result ≡ allows self.now line.now }
    {
        match line {
            Line::Class(_) => true,
            Line::Item(item) => self.allows_item(item),
        }
    }

    fn begin_method(&mut self, alloc: Global)
        ensures class { self.new.in_class ≡ true }
        ensures method { self.new.in_method ≡ true }
        ensures labels { (name : List ℕ) → has self.new.labels name ≡ false }
    {
        self.in_class = true;
        self.in_method = true;
        self.labels = IndexSet::new(alloc);
    }

    /// The scope behind an item of a class.
    fn enter_item(&mut self, alloc: Global, item: &Item) -> Result<(), Memory>
        ensures { OnOk result ((earlier : List Line) → IsScope earlier self.old → IsScope (Line.Item item.now ∷ earlier) self.new) }
    {
        self.in_class = true;
        match item {
            Item::Method { .. } => {
                self.begin_method(alloc);
                Ok(())
            }
            Item::Initializer => {
                self.begin_method(alloc);
                Ok(())
            }
            Item::Instruction {
                label: Some(name),
                ..
            } => {
                self.labels.insert(name.copy(alloc)?)?;
                Ok(())
            }
            _ => Ok(()),
        }
    }

    /// The scope behind one more item.
    pub(crate) fn enter(&mut self, alloc: Global, line: &Line) -> Result<(), Memory>
        ensures { OnOk result ((earlier : List Line) → IsScope earlier self.old → IsScope (line.now ∷ earlier) self.new) }
    {
        match line {
            Line::Class(_) => {
                self.in_class = true;
                self.in_method = false;
                self.labels = IndexSet::new(alloc);
                Ok(())
            }
            Line::Item(item) => self.enter_item(alloc, item),
        }
    }
}
