ghost use Rattle.std.specs.Prelude.{◌≡◌, ℕ, List, [], ◌∷◌, ◌<◌, ◌≤◌, ◌+◌, ◌++◌, length, slice_index_or, IfOk, IfSome, OnOk};
ghost use Rattle.ja_supertypes.specs.InnerIndex.{IsIndexed};
ghost use Rattle.ja_supertypes.specs.LibraryTypes.{first_places, AreLibraryTypes};
ghost use Rattle.ja_supertypes.specs.Supertypes.{place_of, IsDirect};
ghost use Rattle.ja_supertypes.specs.InnerTypes.{names_at, other_than_object, standing_for, AreNoted, AreNotedBelow, AreOwnTypes, AreTypes};

use crate::tables::Tables;
use indexmap::IndexSet;
use ja_base::{Memory, Name, Names, Numbers, Seq, copy_names};
use std::alloc::Global;

/// Library types, one list for each class: those of its own interfaces, and all.
#[derive(Drop)]
struct Types {
    own: Vec<Names>,
    all: Vec<Names>,
}

/// The library types of each class. Classes come in the order of their numbers of supertypes, so that
/// what lies above a class is done before it.
pub fn library_types(alloc: Global, tables: &Tables) -> Result<Seq<Names>, Memory>
    requires { IsIndexed tables.now }
    ensures { IfOk result (AreTypes tables.now.heads) }
{
    let mut types = Types {
        own: no_names(alloc, tables.heads.len())?,
        all: no_names(alloc, tables.heads.len())?,
    };
    for count in 0..levels(tables.supertypes.as_slice()) {
        note_level(alloc, tables, count, &mut types)?;
    }
    let Types { own: _, all } = types;
    Ok(Seq::from_vec(all))
}

/// So many lists without names.
fn no_names(alloc: Global, len: u64) -> Result<Vec<Names>, Memory>
    ensures { IfOk result (λ lists. length lists.items ≡ len) }
{
    let mut lists = Vec::new(alloc);
    for _ in 0..len {
        lists.push(Seq::new(alloc))?;
    }
    Ok(lists)
}

/// A number above the length of each list.
fn levels(lists: &[Numbers]) -> usize
    ensures { (c : ℕ) → c < length lists.now → length (slice_index_or lists.now c []) < result }
{
    let mut levels = 0;
    for list in lists {
        let len = list.as_slice().len();
        if len >= levels {
            levels = len + 1;
        }
    }
    levels
}

/// Notes the library types of the classes with so many supertypes.
fn note_level(alloc: Global, tables: &Tables, count: usize, types: &mut Types) -> Result<(), Memory>
    requires indexed { IsIndexed tables.now }
    requires noted { AreNotedBelow tables.now types.old.own.items types.old.all.items count }
    ensures { OnOk result (AreNotedBelow tables.now types.new.own.items types.new.all.items (count + 1)) }
{
    for class in 0..tables.heads.len() {
        note_at(alloc, tables, class as u32, count, types)?;
    }
    Ok(())
}

/// The number of supertypes of a class.
fn supertype_count(tables: &Tables, class: u32) -> usize
    requires indexed { IsIndexed tables.now }
    requires inside { class < length tables.now.heads }
    ensures { result ≡ length (slice_index_or tables.now.supertypes class []) }
{
    tables.supertypes.at(class as u64).as_slice().len()
}

/// Notes the library types of a class, where it has so many supertypes.
fn note_at(
    alloc: Global,
    tables: &Tables,
    class: u32,
    count: usize,
    types: &mut Types,
) -> Result<(), Memory>
    requires indexed { IsIndexed tables.now }
    requires inside { class < length tables.now.heads }
    requires own_size { length types.old.own.items ≡ length tables.now.heads }
    requires all_size { length types.old.all.items ≡ length tables.now.heads }
    requires below { (c : ℕ) → c < length tables.now.heads → length (slice_index_or tables.now.supertypes c []) < count → AreNoted tables.now.heads types.old.own.items types.old.all.items c }
    ensures own_size { length types.new.own.items ≡ length tables.now.heads }
    ensures all_size { length types.new.all.items ≡ length tables.now.heads }
    ensures noted { OnOk result (length (slice_index_or tables.now.supertypes class []) ≡ count → AreNoted tables.now.heads types.new.own.items types.new.all.items class) }
    ensures kept { (c : ℕ) → AreNoted tables.now.heads types.old.own.items types.old.all.items c → AreNoted tables.now.heads types.new.own.items types.new.all.items c }
{
    if supertype_count(tables, class) != count {
        return Ok(());
    }
    note_class(alloc, tables, class, types)
}

/// Notes the library types of a class.
fn note_class(alloc: Global, tables: &Tables, class: u32, types: &mut Types) -> Result<(), Memory>
    requires indexed { IsIndexed tables.now }
    requires inside { class < length tables.now.heads }
    requires own_size { length types.old.own.items ≡ length tables.now.heads }
    requires all_size { length types.old.all.items ≡ length tables.now.heads }
    requires above { (d : ℕ) → IsDirect tables.now.heads class d → AreNoted tables.now.heads types.old.own.items types.old.all.items d }
    ensures own_size { length types.new.own.items ≡ length tables.now.heads }
    ensures all_size { length types.new.all.items ≡ length tables.now.heads }
    ensures noted { OnOk result (AreNoted tables.now.heads types.new.own.items types.new.all.items class) }
    ensures kept { (c : ℕ) → AreNoted tables.now.heads types.old.own.items types.old.all.items c → AreNoted tables.now.heads types.new.own.items types.new.all.items c }
{
    let own = own_types(alloc, tables, class, types.own.as_slice())?;
    let all = all_types(alloc, tables, class, own.as_slice(), types.all.as_slice())?;
    types.own[class as usize] = own;
    types.all[class as usize] = all;
    Ok(())
}

/// The library types of the interfaces of a class itself.
fn own_types(alloc: Global, tables: &Tables, class: u32, own: &[Names]) -> Result<Names, Memory>
    requires indexed { IsIndexed tables.now }
    requires inside { class < length tables.now.heads }
    requires size { length own.now ≡ length tables.now.heads }
    requires above { (d : ℕ) → IsDirect tables.now.heads class d → AreOwnTypes tables.now.heads d (slice_index_or own.now d []) }
    ensures { IfOk result (AreOwnTypes tables.now.heads class) }
{
    let head = tables.heads.at(class as u64);
    let interfaces = head.interfaces.as_slice();
    let mut found = IndexSet::new(alloc);
    for interface in interfaces {
        add_interface(alloc, &mut found, &tables.names, own, interface)?;
    }
    copy_names(alloc, found.as_slice())
}

/// The library types of a class, from those of its own interfaces and of its superclass.
fn all_types(
    alloc: Global,
    tables: &Tables,
    class: u32,
    own: &[Name],
    all: &[Names],
) -> Result<Names, Memory>
    requires indexed { IsIndexed tables.now }
    requires inside { class < length tables.now.heads }
    requires size { length all.now ≡ length tables.now.heads }
    requires own { AreOwnTypes tables.now.heads class own.now }
    requires above { (d : ℕ) → IsDirect tables.now.heads class d → AreLibraryTypes tables.now.heads d (slice_index_or all.now d []) }
    ensures { IfOk result (AreLibraryTypes tables.now.heads class) }
{
    let mut found = IndexSet::new(alloc);
    let top = *tables.tops.at(class as u64);
    let head = tables.heads.at(top);
    let superclass = *tables.superclasses.at(class as u64);
    add_superclass(alloc, &mut found, &head.superclass)?;
    add_all(alloc, &mut found, own)?;
    add_superclass_types(alloc, &mut found, superclass, all)?;
    copy_names(alloc, found.as_slice())
}

/// Adds a name that was not there at the end.
fn add(alloc: Global, found: &mut IndexSet<Name>, name: &Name) -> Result<(), Memory>
    ensures { OnOk result ((names : List (List ℕ)) → found.old.keys ≡ first_places names → found.new.keys ≡ first_places (names ++ name.now ∷ [])) }
{
    let copy = name.copy(alloc)?;
    match found.insert(copy) {
        Ok(_) => Ok(()),
        Err(_) => Err(Memory),
    }
}

/// Adds each name that was not there at the end.
fn add_all(alloc: Global, found: &mut IndexSet<Name>, added: &[Name]) -> Result<(), Memory>
    ensures { OnOk result ((names : List (List ℕ)) → found.old.keys ≡ first_places names → found.new.keys ≡ first_places (names ++ added.now)) }
{
    for name in added {
        add(alloc, found, name)?;
    }
    Ok(())
}

/// Adds what stands for an interface: itself, or the names of a program interface.
fn add_interface(
    alloc: Global,
    found: &mut IndexSet<Name>,
    names: &IndexSet<Name>,
    own: &[Names],
    interface: &Name,
) -> Result<(), Memory>
    requires { length names.now.keys ≡ length own.now }
    ensures { OnOk result ((listed : List (List ℕ)) → found.old.keys ≡ first_places listed → found.new.keys ≡ first_places (listed ++ standing_for own.now interface.now (place_of names.now.keys interface.now))) }
{
    match names.get_index_of(interface) {
        None => add(alloc, found, interface),
        Some(place) => add_all(alloc, found, own[place].as_slice()),
    }
}

/// Adds the library types of a superclass, if there is one.
fn add_superclass_types(
    alloc: Global,
    found: &mut IndexSet<Name>,
    superclass: Option<u32>,
    all: &[Names],
) -> Result<(), Memory>
    requires { IfSome superclass (λ class. class < length all.now) }
    ensures { OnOk result ((names : List (List ℕ)) → found.old.keys ≡ first_places names → found.new.keys ≡ first_places (names ++ names_at all.now superclass)) }
{
    match superclass {
        None => Ok(()),
        Some(class) => add_all(alloc, found, all[class as usize].as_slice()),
    }
}

/// Adds the name of a superclass, where it is not `java/lang/Object`.
fn add_superclass(
    alloc: Global,
    found: &mut IndexSet<Name>,
    superclass: &Option<Name>,
) -> Result<(), Memory>
    ensures { OnOk result ((names : List (List ℕ)) → found.old.keys ≡ first_places names → found.new.keys ≡ first_places (names ++ other_than_object superclass.now)) }
{
    match superclass {
        None => Ok(()),
        Some(name) => {
            if name.bytes() == b"java/lang/Object".as_slice() {
                Ok(())
            } else {
                add(alloc, found, name)
            }
        }
    }
}
