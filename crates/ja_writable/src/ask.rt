//! The entries of the constant pool that items name (JVM specification 4.4).

ghost use Rattle.std.specs.Prelude.{◌≡◌, ◌∷◌, [], fold, bytes_eq, codes, OnOk, IfOk};
ghost use Rattle.ja_assembly.specs.declared.key.Key.TheVariants.{Text};
ghost use Rattle.ja_assembly.specs.Members.{expanded, initializer};
ghost use Rattle.ja_assembly.specs.Wanted.{with_one, same_key, class_keys, member_keys, operand_keys, frame_keys, catch_keys, item_keys, item_strings, method_tag, head_keys, keys_in};
ghost use Rattle.ja_writable.specs.InnerJudging.{Asks};

use indexmap::IndexSet;
use ja_assembly::{Key, constructor_of, method_tag};
use ja_base::tag::{FIELD, METHOD, Tag};
use ja_base::{Memory, Name};
use ja_code::Opcode;
use ja_listing::{Frame, Head, Item, MemberName, Operand};
use std::alloc::Global;

/// Adds an entry that is not there.
fn ask(keys: &mut IndexSet<Key>, key: Key) -> Result<(), Memory>
    ensures { OnOk result (keys.new.keys ≡ with_one same_key keys.old.keys key) }
{
    keys.insert(key)?;
    Ok(())
}

/// A text.
fn ask_text(alloc: Global, keys: &mut IndexSet<Key>, text: &[u8]) -> Result<(), Memory>
    ensures { OnOk result (keys.new.keys ≡ with_one same_key keys.old.keys (Text text.now)) }
{
    ask(keys, Key::Text(Name::of(alloc, text)?))
}

/// A class with its name.
fn ask_class(alloc: Global, keys: &mut IndexSet<Key>, name: &Name) -> Result<(), Memory>
    ensures { OnOk result (Asks keys.old.keys keys.new.keys (class_keys name.now)) }
{
    ask_text(alloc, keys, name.bytes())?;
    ask(keys, Key::Class(name.copy(alloc)?))
}

/// A reference to a member with this tag.
fn ask_member(
    alloc: Global,
    keys: &mut IndexSet<Key>,
    tag: Tag,
    member: &MemberName,
) -> Result<(), Memory>
    ensures { OnOk result (Asks keys.old.keys keys.new.keys (member_keys tag member.now)) }
{
    ask_class(alloc, keys, &member.class)?;
    ask_text(alloc, keys, member.name.bytes())?;
    ask_text(alloc, keys, member.desc.bytes())?;
    let name = member.name.copy(alloc)?;
    let desc = member.desc.copy(alloc)?;
    ask(keys, Key::NameAndType(name, desc))?;
    let class = member.class.copy(alloc)?;
    let name = member.name.copy(alloc)?;
    let desc = member.desc.copy(alloc)?;
    ask(keys, Key::Member(tag, class, name, desc))
}

/// What an operand names, but for strings.
fn ask_operand(
    alloc: Global,
    keys: &mut IndexSet<Key>,
    opcode: Opcode,
    operand: &Operand,
) -> Result<(), Memory>
    ensures { OnOk result (Asks keys.old.keys keys.new.keys (operand_keys opcode operand.now)) }
{
    match operand {
        Operand::Nothing
        | Operand::Constant(_)
        | Operand::LocalAndConstant(_, _)
        | Operand::Label(_) => Ok(()),
        Operand::Quotation(text) => ask_text(alloc, keys, text.bytes()),
        Operand::ClassName(name) | Operand::ArrayName(name, _) => ask_class(alloc, keys, name),
        Operand::FieldName(member) => ask_member(alloc, keys, FIELD, member),
        Operand::MethodName(member) => {
            ask_member(alloc, keys, method_tag(Some(opcode.form())), member)
        }
    }
}

/// The name of the attribute of a method's code.
fn ask_frame(alloc: Global, keys: &mut IndexSet<Key>, frame: &Option<Frame>) -> Result<(), Memory>
    ensures { OnOk result (Asks keys.old.keys keys.new.keys (frame_keys frame.now)) }
{
    match frame {
        None => Ok(()),
        Some(_) => ask_text(alloc, keys, b"Code"),
    }
}

/// The name and the descriptor of a field or a method.
fn ask_pair(alloc: Global, keys: &mut IndexSet<Key>, name: &[u8], desc: &[u8]) -> Result<(), Memory>
    ensures { OnOk result (Asks keys.old.keys keys.new.keys (Text name.now ∷ Text desc.now ∷ [])) }
{
    ask_text(alloc, keys, name)?;
    ask_text(alloc, keys, desc)
}

/// What the constructor that calls that of a superclass names.
fn ask_initializer(alloc: Global, keys: &mut IndexSet<Key>, superclass: &Name) -> Result<(), Memory>
    ensures { OnOk result (Asks keys.old.keys keys.new.keys (keys_in (initializer superclass.now))) }
{
    let member = constructor_of(alloc, superclass)?;
    ask_pair(alloc, keys, b"<init>", b"()V")?;
    ask_text(alloc, keys, b"Code")?;
    ask_member(alloc, keys, METHOD, &member)?;
    Ok(())
}

/// What an item names, but for strings, in a class with this superclass.
pub(crate) fn ask_item(
    alloc: Global,
    keys: &mut IndexSet<Key>,
    superclass: &Name,
    item: &Item,
) -> Result<(), Memory>
    ensures { OnOk result (Asks keys.old.keys keys.new.keys (keys_in (expanded superclass.now item.now))) }
{
    match item {
        Item::Field { name, desc, .. } => ask_pair(alloc, keys, name.bytes(), desc.bytes()),
        Item::Method {
            name,
            desc,
            frame,
            ..
        } => {
            ask_pair(alloc, keys, name.bytes(), desc.bytes())?;
            ask_frame(alloc, keys, frame)
        }
        Item::Initializer => ask_initializer(alloc, keys, superclass),
        Item::Try { catch, .. } => ask_catch(alloc, keys, catch),
        Item::Instruction {
            opcode,
            operand,
            ..
        } => ask_operand(alloc, keys, *opcode, operand),
    }
}

/// What an entry of an exception table catches.
fn ask_catch(alloc: Global, keys: &mut IndexSet<Key>, catch: &Option<Name>) -> Result<(), Memory>
    ensures { OnOk result (Asks keys.old.keys keys.new.keys (catch_keys catch.now)) }
{
    match catch {
        None => Ok(()),
        Some(name) => ask_class(alloc, keys, name),
    }
}

/// What the item that begins a class names.
pub(crate) fn ask_head(alloc: Global, keys: &mut IndexSet<Key>, head: &Head) -> Result<(), Memory>
    ensures { OnOk result (Asks keys.old.keys keys.new.keys (head_keys head.now)) }
{
    ask_class(alloc, keys, &head.name)?;
    ask_class(alloc, keys, &head.superclass)
}

/// The string that an item names.
pub(crate) fn ask_string(
    alloc: Global,
    strings: &mut IndexSet<Name>,
    item: &Item,
) -> Result<(), Memory>
    ensures { OnOk result (strings.new.keys ≡ fold (with_one bytes_eq) strings.old.keys (item_strings item.now)) }
{
    if let Item::Instruction {
        operand: Operand::Quotation(text),
        ..
    } = item
    {
        strings.insert(text.copy(alloc)?)?;
    }
    Ok(())
}
