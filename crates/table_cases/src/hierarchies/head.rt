//! The classes that lines spell.
use crate::hierarchies::words::{hexadecimal, number, numbered, word};
use case_text::words_of;
use ja_base::{Memory, Name, Names, Seq};
use ja_ir::{ClassHead, HeadField, HeadFields, HeadMethod, HeadMethods};
use std::alloc::Global;

/// The heads of the classes that the lines of a case spell, in their order.
pub fn heads_of(alloc: Global, lines: &[&str]) -> Result<Vec<ClassHead>, Memory> {
    let mut heads = Vec::new(alloc);
    for (at, line) in lines.iter().enumerate() {
        let members = lines.get(at.saturating_add(1)..).unwrap_or(&[]);
        add_classes(&mut heads, alloc, line, members)?;
    }
    Ok(heads)
}

/// Adds the classes of a line, if it is one of classes. The lines after it begin with their members.
fn add_classes(
    heads: &mut Vec<ClassHead>,
    alloc: Global,
    line: &str,
    members: &[&str],
) -> Result<(), Memory> {
    let words = words_of(alloc, line)?;
    let words = words.as_slice();
    match words.first().copied() {
        Some("class") => add_class(heads, alloc, words, members),
        Some("classes") => add_row(heads, alloc, words, members),
        _ => Ok(()),
    }
}

/// Adds the class of a line `class NAME SUPERCLASS INTERFACE..`.
fn add_class(
    heads: &mut Vec<ClassHead>,
    alloc: Global,
    words: &[&str],
    members: &[&str],
) -> Result<(), Memory> {
    let superclass = superclass(alloc, word(words, 2))?;
    let interfaces = words.get(3..).unwrap_or(&[]);
    add_head(
        heads,
        alloc,
        word(words, 1),
        superclass,
        interfaces,
        members,
    )
}

/// Adds the classes of a line `classes PREFIX FIRST LAST INTERFACE..`.
fn add_row(
    heads: &mut Vec<ClassHead>,
    alloc: Global,
    words: &[&str],
    members: &[&str],
) -> Result<(), Memory> {
    let interfaces = words.get(4..).unwrap_or(&[]);
    for class in number(word(words, 2))..=number(word(words, 3)) {
        add_numbered(heads, alloc, word(words, 1), class, interfaces, members)?;
    }
    Ok(())
}

/// Adds the class of a number in a row.
fn add_numbered(
    heads: &mut Vec<ClassHead>,
    alloc: Global,
    prefix: &str,
    class: u32,
    interfaces: &[&str],
    members: &[&str],
) -> Result<(), Memory> {
    let name = numbered(alloc, prefix, class)?;
    let superclass = above(alloc, prefix, class)?;
    add_head(
        heads,
        alloc,
        name.as_str(),
        Some(superclass),
        interfaces,
        members,
    )
}

/// The name of the superclass of the class of a number in a row.
fn above(alloc: Global, prefix: &str, class: u32) -> Result<Name, Memory> {
    match class.checked_sub(1) {
        Some(above) => Name::of(alloc, numbered(alloc, prefix, above)?.as_bytes()),
        None => Name::of(alloc, b"java/lang/Object"),
    }
}

/// The name of a superclass, or none where the word is `-`.
fn superclass(alloc: Global, word: &str) -> Result<Option<Name>, Memory> {
    if word == "-" {
        return Ok(None);
    }
    Ok(Some(Name::of(alloc, word.as_bytes())?))
}

/// The names that words spell.
fn names_of(alloc: Global, words: &[&str]) -> Result<Names, Memory> {
    let mut names = Names::new(alloc);
    for word in words {
        names.push(Name::of(alloc, word.as_bytes())?)?;
    }
    Ok(names)
}

/// Adds a public class with the members that the lines begin with.
fn add_head(
    heads: &mut Vec<ClassHead>,
    alloc: Global,
    name: &str,
    superclass: Option<Name>,
    interfaces: &[&str],
    lines: &[&str],
) -> Result<(), Memory> {
    heads.push(head(alloc, name, superclass, interfaces, lines)?)?;
    Ok(())
}

/// A public class with the members that the lines begin with.
fn head(
    alloc: Global,
    name: &str,
    superclass: Option<Name>,
    interfaces: &[&str],
    lines: &[&str],
) -> Result<ClassHead, Memory> {
    let name = Name::of(alloc, name.as_bytes())?;
    let interfaces = names_of(alloc, interfaces)?;
    let members = members_of(alloc, lines)?;
    Ok(ClassHead {
        name,
        superclass,
        interfaces,
        flags: 0x0001,
        fields: members.fields,
        methods: members.methods,
    })
}

/// The members of a class.
#[derive(Drop)]
struct Members {
    fields: HeadFields,
    methods: HeadMethods,
}

/// The members that the lines begin with.
fn members_of(alloc: Global, lines: &[&str]) -> Result<Members, Memory> {
    let mut members = Members {
        fields: Seq::new(alloc),
        methods: Seq::new(alloc),
    };
    for line in lines {
        if !add_member(&mut members, alloc, line)? {
            break;
        }
    }
    Ok(members)
}

/// Adds the member of a line `field NAME` or `method NAME FLAGS`, and answers whether there is one.
fn add_member(members: &mut Members, alloc: Global, line: &str) -> Result<bool, Memory> {
    let words = words_of(alloc, line)?;
    let words = words.as_slice();
    match words.first().copied() {
        Some("field") => add_field(&mut members.fields, alloc, word(words, 1)),
        Some("method") => add_method(
            &mut members.methods,
            alloc,
            word(words, 1),
            hexadecimal(word(words, 2)),
        ),
        _ => Ok(false),
    }
}

/// Adds a public field of type `int`.
fn add_field(fields: &mut HeadFields, alloc: Global, name: &str) -> Result<bool, Memory> {
    fields.push(HeadField {
        name: Name::of(alloc, name.as_bytes())?,
        desc: Name::of(alloc, b"I")?,
        flags: 0x0001,
        text: false,
    })?;
    Ok(true)
}

/// Adds a method without parameters and result.
fn add_method(
    methods: &mut HeadMethods,
    alloc: Global,
    name: &str,
    flags: u32,
) -> Result<bool, Memory> {
    methods.push(HeadMethod {
        name: Name::of(alloc, name.as_bytes())?,
        desc: Name::of(alloc, b"()V")?,
        flags,
    })?;
    Ok(true)
}
