use crate::call::{Call, Summary, is_call_thrown, is_return};
use crate::frame::{Frame, Truth};
use crate::normal::is_normal_end;
use crate::point::Point;
use crate::thrown::is_exceptional_end;
use ja_base::Memory;
use std::alloc::Global;

/// Pairs of truths, one before and one after, sorted by the numbers of the first ones.
#[derive(Drop)]
pub struct Relation {
    pub pairs: Vec<(Truth, Truth)>,
}

impl Relation {
    /// Whether a pair is in it.
    pub fn has(&self, before: Truth, after: Truth) -> bool {
        self.pairs.iter().any(|pair| *pair == (before, after))
    }

    /// The truths to which it leads from one.
    fn led(&self, alloc: Global, before: Truth) -> Result<Vec<Truth>, Memory> {
        let mut led = Vec::new(alloc);
        for pair in &self.pairs {
            if pair.0 == before {
                led.push(pair.1)?;
            }
        }
        Ok(led)
    }

    /// Adds the pairs from a truth to those that are marked.
    fn add_marked(&mut self, before: Truth, marks: &[bool]) -> Result<(), Memory> {
        for number in 0..marks.len() {
            if marks[number] {
                self.pairs.push((before, Truth::of(number as u64)))?;
            }
        }
        Ok(())
    }

    /// Marks the truths to which this relation leads from some.
    fn mark(&self, marks: &mut [bool], from: &[Truth]) {
        for pair in &self.pairs {
            let place = pair.1.number() as usize;
            if place < marks.len() && from.iter().any(|before| *before == pair.0) {
                marks[place] = true;
            }
        }
    }

    /// This relation and then another one, on one frame.
    pub fn then(&self, alloc: Global, frame: Frame, next: &Relation) -> Result<Relation, Memory> {
        let mut all = Relation {
            pairs: Vec::new(alloc),
        };
        for number in 0..frame.truths() {
            let before = Truth::of(number);
            let middle = self.led(alloc, before)?;
            let mut marks = Vec::from_elem(alloc, false, frame.truths() as usize)?;
            next.mark(marks.as_mut_slice(), middle.as_slice());
            all.add_marked(before, marks.as_slice())?;
        }
        Ok(all)
    }
}

/// The truths after a normal end, or after an exceptional one, from a truth.
fn add_ends(all: &mut Relation, point: &Point, before: Truth, throws: bool) -> Result<(), Memory> {
    for number in 0..point.frame.truths() {
        let after = Truth::of(number);
        let is_end = if throws {
            is_exceptional_end(point, before, after)
        } else {
            is_normal_end(point, before, after)
        };
        if is_end {
            all.pairs.push((before, after))?;
        }
    }
    Ok(())
}

/// The relation of the ends of one kind.
fn ends(alloc: Global, point: &Point, throws: bool) -> Result<Relation, Memory> {
    let mut all = Relation {
        pairs: Vec::new(alloc),
    };
    for number in 0..point.frame.truths() {
        add_ends(&mut all, point, Truth::of(number), throws)?;
    }
    Ok(all)
}

/// The relation of an instruction's normal end.
pub fn normal_ends(alloc: Global, point: &Point) -> Result<Relation, Memory> {
    ends(alloc, point, false)
}

/// The relation of an instruction's exceptional end.
pub fn thrown_ends(alloc: Global, point: &Point) -> Result<Relation, Memory> {
    ends(alloc, point, true)
}

/// Whether some of the summaries may lead from the one truth to the other.
fn some_leads(
    call: &Call,
    summaries: &[Summary],
    throws: bool,
    before: Truth,
    after: Truth,
) -> bool {
    for summary in summaries {
        let leads = if throws {
            is_call_thrown(call, before, *summary, after)
        } else {
            is_return(call, before, *summary, after)
        };
        if leads {
            return true;
        }
    }
    false
}

/// The relation of a method's returns, or of its throws, by its summaries.
pub fn returns(
    alloc: Global,
    call: &Call,
    summaries: &[Summary],
    throws: bool,
) -> Result<Relation, Memory> {
    let mut all = Relation {
        pairs: Vec::new(alloc),
    };
    for number in 0..call.frame.truths() {
        let before = Truth::of(number);
        for other in 0..call.frame.truths() {
            let after = Truth::of(other);
            if some_leads(call, summaries, throws, before, after) {
                all.pairs.push((before, after))?;
            }
        }
    }
    Ok(all)
}
