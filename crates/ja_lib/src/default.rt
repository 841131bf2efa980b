ghost use Rattle.std.specs.Prelude.{◌≡◌, [], ◌∷◌, ◌++◌, None, Some, map, option_to_list, IfOk, OnOk};
ghost use Rattle.ja_ir.specs.declared.row.LibRow.{LibRow};
ghost use Rattle.ja_lib.specs.Defaults.{row_of, rows_of, taint, requests, responses, writers, statements, strings, builders, objects, taint_rows, servlet_rows, sink_rows, string_rows, builder_rows, object_rows, default_rows, default_entries, default_content, servlet_entry, main_entry};
ghost use Rattle.ja_lib.specs.Means.{lib_row};

use crate::category::all_marks;
use crate::{EntryRow, EntryRows, Table, TableRow, TableRows};
use ja_base::{Memory, Name, Names, Seq};
use ja_ir::{LibRow, RowEffect, RowFlow, RowResult};
use std::alloc::Global;

/// What a call does, with at most one sink.
#[derive(Clone, Copy)]
struct Means {
    flow: RowFlow,
    effect: RowEffect,
    result: RowResult,
    sink: Option<u64>,
}

/// It makes a tainted thing.
const MARK: Means = Means {
    flow: RowFlow::Always,
    effect: RowEffect::Quiet,
    result: RowResult::Fresh,
    sink: None,
};

/// It takes no tainted first argument.
const CHECK: Means = Means {
    flow: RowFlow::Never,
    effect: RowEffect::Quiet,
    result: RowResult::Fresh,
    sink: Some(0),
};

/// It takes no tainted second argument, and the receiver holds it.
const WRITE: Means = Means {
    flow: RowFlow::Args,
    effect: RowEffect::Absorb,
    result: RowResult::Fresh,
    sink: Some(1),
};

/// It takes no tainted second argument.
const QUERY: Means = Means {
    flow: RowFlow::Args,
    effect: RowEffect::Quiet,
    result: RowResult::Fresh,
    sink: Some(1),
};

/// It makes a thing of its arguments.
const COPY: Means = Means {
    flow: RowFlow::Args,
    effect: RowEffect::Quiet,
    result: RowResult::Fresh,
    sink: None,
};

/// The receiver takes in what the arguments hold.
const FILL: Means = Means {
    flow: RowFlow::Args,
    effect: RowEffect::Absorb,
    result: RowResult::Fresh,
    sink: None,
};

/// Any argument takes in what another holds.
const SHARE: Means = Means {
    flow: RowFlow::Args,
    effect: RowEffect::Blend,
    result: RowResult::Fresh,
    sink: None,
};

/// As `FILL`, and it answers the receiver.
const CHAIN: Means = Means {
    flow: RowFlow::Args,
    effect: RowEffect::Absorb,
    result: RowResult::Argument,
    sink: None,
};

/// It answers the receiver.
const CUT: Means = Means {
    flow: RowFlow::Never,
    effect: RowEffect::Quiet,
    result: RowResult::Argument,
    sink: None,
};

/// It does nothing.
const BEGIN: Means = Means {
    flow: RowFlow::Never,
    effect: RowEffect::Quiet,
    result: RowResult::Fresh,
    sink: None,
};

/// It answers a part of the receiver.
const PART: Means = Means {
    flow: RowFlow::Args,
    effect: RowEffect::Quiet,
    result: RowResult::Member,
    sink: None,
};

/// It answers something like an argument.
const CLONE: Means = Means {
    flow: RowFlow::Args,
    effect: RowEffect::Quiet,
    result: RowResult::Any,
    sink: None,
};

impl Means {
    fn lib_row(self, alloc: Global) -> Result<LibRow, Memory>
        ensures { IfOk result (λ row. row ≡ lib_row self) }
    {
        let mut sinks = Seq::new(alloc);
        if let Some(position) = self.sink {
            sinks.push(position)?;
        }
        Ok(LibRow {
            flow: self.flow,
            effect: self.effect,
            result: self.result,
            sinks,
            marks: all_marks(alloc, &[])?,
            category: 0,
        })
    }
}

fn name_of(alloc: Global, text: &str) -> Result<Name, Memory>
    ensures { IfOk result (λ name. name ≡ text.now) }
{
    Name::of(alloc, text.as_bytes())
}

fn names_of(alloc: Global, texts: &[&str]) -> Result<Names, Memory>
    ensures { IfOk result (λ names. names ≡ map (λ text. text.now) texts.now) }
{
    let mut names = Seq::new(alloc);
    for text in texts {
        names.push(name_of(alloc, text)?)?;
    }
    Ok(names)
}

fn add_row(
    rows: &mut TableRows,
    alloc: Global,
    classes: &[&str],
    method: &str,
    means: Means,
) -> Result<(), Memory>
    ensures { OnOk result (rows.new ≡ rows.old ++ row_of (map (λ text. text.now) classes.now) (lib_row means) None method.now ∷ []) }
{
    rows.push(TableRow {
        classes: names_of(alloc, classes)?,
        method: name_of(alloc, method)?,
        desc: None,
        meaning: means.lib_row(alloc)?,
    })
}

fn add_rows(
    rows: &mut TableRows,
    alloc: Global,
    classes: &[&str],
    methods: &[&str],
    means: Means,
) -> Result<(), Memory>
    ensures { OnOk result (rows.new ≡ rows.old ++ rows_of (map (λ text. text.now) classes.now) (lib_row means) (map (λ text. text.now) methods.now)) }
{
    for method in methods {
        add_row(rows, alloc, classes, method, means)?;
    }
    Ok(())
}

fn add_taint_rows(rows: &mut TableRows, alloc: Global) -> Result<(), Memory>
    ensures { OnOk result (rows.new ≡ rows.old ++ taint_rows) }
{
    let classes = ["demo/Taint"];
    add_rows(rows, alloc, &classes, &["source"], MARK)?;
    add_rows(rows, alloc, &classes, &["sink"], CHECK)?;
    add_rows(rows, alloc, &classes, &["copy"], COPY)?;
    Ok(())
}

fn add_servlet_rows(rows: &mut TableRows, alloc: Global) -> Result<(), Memory>
    ensures { OnOk result (rows.new ≡ rows.old ++ servlet_rows) }
{
    let requests = [
        "javax/servlet/ServletRequest",
        "javax/servlet/http/HttpServletRequest",
    ];
    let responses = [
        "javax/servlet/ServletResponse",
        "javax/servlet/http/HttpServletResponse",
    ];
    let reads = [
        "getParameter",
        "getParameterValues",
        "getHeader",
        "getQueryString",
    ];
    add_rows(rows, alloc, &requests, &reads, MARK)?;
    add_rows(rows, alloc, &responses, &["getWriter"], PART)?;
    Ok(())
}

fn add_sink_rows(rows: &mut TableRows, alloc: Global) -> Result<(), Memory>
    ensures { OnOk result (rows.new ≡ rows.old ++ sink_rows) }
{
    let queries = ["executeQuery", "executeUpdate", "execute"];
    add_rows(
        rows,
        alloc,
        &["java/io/PrintWriter"],
        &["print", "println", "write"],
        WRITE,
    )?;
    add_rows(rows, alloc, &["java/sql/Statement"], &queries, QUERY)?;
    Ok(())
}

fn add_string_rows(rows: &mut TableRows, alloc: Global) -> Result<(), Memory>
    ensures { OnOk result (rows.new ≡ rows.old ++ string_rows) }
{
    let classes = ["java/lang/String"];
    add_rows(rows, alloc, &classes, &["<init>"], FILL)?;
    add_rows(rows, alloc, &classes, &["getChars", "getBytes"], SHARE)?;
    add_rows(rows, alloc, &classes, &["*"], COPY)?;
    Ok(())
}

fn add_builder_rows(rows: &mut TableRows, alloc: Global) -> Result<(), Memory>
    ensures { OnOk result (rows.new ≡ rows.old ++ builder_rows) }
{
    let classes = ["java/lang/StringBuilder", "java/lang/StringBuffer"];
    add_rows(rows, alloc, &classes, &["<init>", "setCharAt"], FILL)?;
    add_rows(
        rows,
        alloc,
        &classes,
        &["append", "insert", "replace"],
        CHAIN,
    )?;
    add_rows(
        rows,
        alloc,
        &classes,
        &["delete", "deleteCharAt", "reverse"],
        CUT,
    )?;
    add_rows(rows, alloc, &classes, &["getChars"], SHARE)?;
    add_rows(rows, alloc, &classes, &["*"], COPY)?;
    Ok(())
}

fn add_object_rows(rows: &mut TableRows, alloc: Global) -> Result<(), Memory>
    ensures { OnOk result (rows.new ≡ rows.old ++ object_rows) }
{
    let classes = ["java/lang/Object"];
    let reads = ["equals", "hashCode", "toString", "getClass"];
    rows.push(TableRow {
        classes: names_of(alloc, &classes)?,
        method: name_of(alloc, "<init>")?,
        desc: Some(name_of(alloc, "()V")?),
        meaning: BEGIN.lib_row(alloc)?,
    })?;
    add_rows(rows, alloc, &classes, &reads, COPY)?;
    add_rows(rows, alloc, &classes, &["clone"], CLONE)?;
    Ok(())
}

fn default_rows(alloc: Global) -> Result<TableRows, Memory>
    ensures { IfOk result (λ rows. rows ≡ default_rows) }
{
    let mut rows = Seq::new(alloc);
    add_taint_rows(&mut rows, alloc)?;
    add_servlet_rows(&mut rows, alloc)?;
    add_sink_rows(&mut rows, alloc)?;
    add_string_rows(&mut rows, alloc)?;
    add_builder_rows(&mut rows, alloc)?;
    add_object_rows(&mut rows, alloc)?;
    Ok(rows)
}

fn servlet_entry(alloc: Global, method: &str, desc: &str) -> Result<EntryRow, Memory>
    ensures { IfOk result (λ entry. entry ≡ servlet_entry desc.now method.now) }
{
    Ok(EntryRow {
        class: name_of(alloc, "javax/servlet/http/HttpServlet")?,
        is_static: false,
        method: name_of(alloc, method)?,
        desc: name_of(alloc, desc)?,
        marked: Seq::new(alloc),
        marks: all_marks(alloc, &[])?,
    })
}

fn main_entry(alloc: Global) -> Result<EntryRow, Memory>
    ensures { IfOk result (λ entry. entry ≡ main_entry) }
{
    Ok(EntryRow {
        class: name_of(alloc, "*")?,
        is_static: true,
        method: name_of(alloc, "main")?,
        desc: name_of(alloc, "([Ljava/lang/String;)V")?,
        marked: Seq::new(alloc),
        marks: all_marks(alloc, &[])?,
    })
}

fn default_entries(alloc: Global) -> Result<EntryRows, Memory>
    ensures { IfOk result (λ entries. entries ≡ default_entries) }
{
    let http = "(Ljavax/servlet/http/HttpServletRequest;Ljavax/servlet/http/HttpServletResponse;)V";
    let plain = "(Ljavax/servlet/ServletRequest;Ljavax/servlet/ServletResponse;)V";
    let mut entries = Seq::new(alloc);
    entries.push(servlet_entry(alloc, "doGet", http)?)?;
    entries.push(servlet_entry(alloc, "doPost", http)?)?;
    entries.push(servlet_entry(alloc, "service", http)?)?;
    entries.push(servlet_entry(alloc, "service", plain)?)?;
    entries.push(main_entry(alloc)?)?;
    Ok(entries)
}

/// The table that stands where a folder has none of its own: servlets, pages, databases and strings.
pub fn default_table(alloc: Global) -> Result<Table, Memory>
    ensures { IfOk result (λ table. table ≡ default_content) }
{
    let categories = Seq::new(alloc);
    let rows = default_rows(alloc)?;
    let entries = default_entries(alloc)?;
    Table::new(alloc, categories, rows, entries)
}
