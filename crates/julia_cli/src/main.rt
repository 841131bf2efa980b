//! The analyser's command line.
#![tactic(auto)]

ghost use Rattle.std.specs.Prelude.{◌≡◌, drop};

use ja_base::{Memory, Name};
use ja_io::{DirFolder, NoGate, StdOut};
use ja_run::{Status, run};
use std::alloc::Global;
use std::env::{self, Env};
use std::process::ExitCode;

/// The words that the system gives, the program's name first. Where it gives none that can be read, there are none.
fn words_given<R: Env + AllocGlobal>(rt: &R) -> Result<Vec<Name>, Memory> {
    let alloc: Global = rt.alloc();
    let mut given = Vec::new(alloc);
    if let Ok(args) = env::args(rt) {
        for arg in args {
            given.push(Name::of(alloc, arg.as_bytes())?)?;
        }
    }
    Ok(given)
}

/// The words after the program's name.
fn words_of(mut given: Vec<Name>) -> Vec<Name>
    ensures { result.items ≡ drop 1 given.items }
{
    if !given.is_empty() {
        given.remove(0);
    }
    given
}

fn main(rt: HostRuntime) -> ExitCode {
    let Ok(given) = words_given(&rt) else {
        return ExitCode::from(Status::NoMemory.number());
    };
    let words = words_of(given);
    let mut folder = DirFolder::new(rt);
    let mut out = StdOut::new(rt.stdout());
    let status = run(
        &rt,
        rt.alloc(),
        words.as_slice(),
        &mut folder,
        &mut out,
        &NoGate,
    );
    ExitCode::from(status.number())
}
