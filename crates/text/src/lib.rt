// The lines that a program prints of a frame, each ended by a line feed.
#![tactic(auto)]

ghost use Rattle.std.specs.Prelude.{◌≤◌, take, Some};
ghost use Rattle.text.specs.Lines.{head_text, slice_text, sum_text, refused_text};

use refusal::Refusal;
use std::fmt;

// A scheduler's letter, M, N and K.
#[derive(Clone, Copy)]
pub struct HeadLine {
    pub letter: char,
    pub cores: u8,
    pub tasks: u8,
    pub intervals: u8,
}

// A slice's stamp and length, and the seats of its cores.
#[derive(Clone, Copy)]
pub struct SliceLine {
    pub stamp: u64,
    pub length: u32,
    pub cores: u8,
    pub seats: [u8; 16],
    ghost few: { cores ≤ 16 },
}

// Slices, switches and busy ticks.
#[derive(Clone, Copy)]
pub struct SumLine {
    pub slices: u64,
    pub switches: u64,
    pub busy: u64,
}

// A refusal.
#[derive(Clone, Copy)]
pub struct RefusedLine(pub Refusal);

impl fmt::Display for HeadLine {
    ghost output = { λ h. Some (head_text h.letter h.cores h.tasks h.intervals) };

    fn fmt<W: fmt::Write>(&self, f: &mut fmt::Formatter<W>) -> fmt::Result {
        writeln!(
            f,
            "{} {} {} {}",
            self.letter, self.cores, self.tasks, self.intervals
        )
    }
}

impl fmt::Display for SliceLine {
    ghost output = { λ s. Some (slice_text s.stamp s.length (take s.cores s.seats)) };

    fn fmt<W: fmt::Write>(&self, f: &mut fmt::Formatter<W>) -> fmt::Result {
        write!(f, "{} {}", self.stamp, self.length)?;
        for seat in &self.seats[..usize::from(self.cores)] {
            write!(f, " {seat}")?;
        }
        writeln!(f)
    }
}

impl fmt::Display for SumLine {
    ghost output = { λ s. Some (sum_text s.slices s.switches s.busy) };

    fn fmt<W: fmt::Write>(&self, f: &mut fmt::Formatter<W>) -> fmt::Result {
        writeln!(f, "sum {} {} {}", self.slices, self.switches, self.busy)
    }
}

impl fmt::Display for RefusedLine {
    ghost output = { λ r. Some (refused_text r.0) };

    fn fmt<W: fmt::Write>(&self, f: &mut fmt::Formatter<W>) -> fmt::Result {
        writeln!(f, "{}", self.0)
    }
}
