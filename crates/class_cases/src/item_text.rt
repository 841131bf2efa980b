//! What is read of a listing as text.
use crate::opcode_case::OpcodeText;
use case_text::ShownBytes;
use ja_base::Name;
use ja_maker::{Frame, Item, Listing, MemberName, Number, Operand};
use std::alloc::AllocError;
use std::fmt;

/// A number of a listing.
#[derive(Clone, Copy)]
struct NumberText(Number);

impl fmt::Display for NumberText {
    fn fmt<W: fmt::Write>(&self, f: &mut fmt::Formatter<W>) -> fmt::Result {
        write!(
            f,
            "{}{}",
            if self.0.negative { "-" } else { "" },
            self.0.size
        )
    }
}

/// A name.
#[derive(Clone, Copy)]
struct NameText<'a>(&'a Name);

impl fmt::Display for NameText<'_> {
    fn fmt<W: fmt::Write>(&self, f: &mut fmt::Formatter<W>) -> fmt::Result {
        write!(f, "{}", ShownBytes(self.0.bytes()))
    }
}

/// A field or a method of a class.
#[derive(Clone, Copy)]
struct MemberText<'a>(&'a MemberName);

impl fmt::Display for MemberText<'_> {
    fn fmt<W: fmt::Write>(&self, f: &mut fmt::Formatter<W>) -> fmt::Result {
        let MemberName { class, name, desc } = self.0;
        write!(
            f,
            "{}.{} {}",
            NameText(class),
            NameText(name),
            NameText(desc)
        )
    }
}

/// An operand, with a blank before it.
#[derive(Clone, Copy)]
struct OperandText<'a>(&'a Operand);

impl fmt::Display for OperandText<'_> {
    fn fmt<W: fmt::Write>(&self, f: &mut fmt::Formatter<W>) -> fmt::Result {
        match self.0 {
            Operand::Nothing => Ok(()),
            Operand::Constant(number) => write!(f, " {}", NumberText(*number)),
            Operand::LocalAndConstant(local, number) => {
                write!(f, " local {} {}", NumberText(*local), NumberText(*number))
            }
            Operand::Label(name) => write!(f, " label {}", NameText(name)),
            Operand::Quotation(text) => write!(f, " text {}", NameText(text)),
            Operand::ClassName(name) => write!(f, " class {}", NameText(name)),
            Operand::FieldName(member) => write!(f, " field {}", MemberText(member)),
            Operand::MethodName(member) => write!(f, " method {}", MemberText(member)),
            Operand::ArrayName(name, dims) => {
                write!(f, " array {} {}", NameText(name), NumberText(*dims))
            }
        }
    }
}

/// The frame of a method, if it has one.
#[derive(Clone, Copy)]
struct FrameText(Option<Frame>);

impl fmt::Display for FrameText {
    fn fmt<W: fmt::Write>(&self, f: &mut fmt::Formatter<W>) -> fmt::Result {
        match self.0 {
            None => f.write_str("without code"),
            Some(frame) => write!(
                f,
                "stack {} locals {}",
                NumberText(frame.stack),
                NumberText(frame.locals)
            ),
        }
    }
}

/// Adds an item.
fn add_item(out: &mut String, item: &Item) -> Result<(), AllocError> {
    match item {
        Item::Field { flags, name, desc } => writeln!(
            out,
            "field {} {} {}",
            NumberText(*flags),
            NameText(name),
            NameText(desc)
        ),
        Item::Method {
            flags,
            name,
            desc,
            frame,
        } => writeln!(
            out,
            "method {} {} {} {}",
            NumberText(*flags),
            NameText(name),
            NameText(desc),
            FrameText(*frame)
        ),
        Item::Initializer => writeln!(out, "constructor"),
        _ => add_item_of_code(out, item),
    }
}

/// Adds an instruction or an entry of an exception table.
fn add_item_of_code(out: &mut String, item: &Item) -> Result<(), AllocError> {
    match item {
        Item::Try {
            start,
            end,
            handler,
            catch,
        } => {
            write!(
                out,
                "try {} {} {} ",
                NameText(start),
                NameText(end),
                NameText(handler)
            )?;
            match catch {
                Some(class) => writeln!(out, "{}", NameText(class)),
                None => writeln!(out, "any"),
            }
        }
        Item::Instruction {
            label,
            opcode,
            operand,
        } => {
            if let Some(label) = label {
                write!(out, "{}: ", NameText(label))?;
            }
            writeln!(out, "{}{}", OpcodeText(*opcode), OperandText(operand))
        }
        _ => Ok(()),
    }
}

/// Adds the lines of a class of a listing: what it is, and each of its items with its number.
pub fn add_listing(out: &mut String, listing: &Listing) -> Result<(), AllocError> {
    let head = listing.head();
    let first = listing.number();
    writeln!(
        out,
        "  {first} class {} super {} flags {}",
        NameText(&head.name),
        NameText(&head.superclass),
        NumberText(head.flags)
    )?;
    for (place, item) in listing.items().as_slice().iter().enumerate() {
        let number = first.saturating_add(1).saturating_add(place as u64);
        write!(out, "  {number} ")?;
        add_item(out, item)?;
    }
    Ok(())
}
