// Lines, and how long what they tell of has taken.
use std::alloc::{AllocError, Global};
use std::fmt::{Display, Write};
use std::time::{Duration, Instant};

#[derive(Drop)]
pub struct Times {
    pub lines: String,
    // whether times come into the lines
    shown: bool,
}

// A part of the work that has begun.
#[derive(Clone, Copy)]
pub struct Part(Instant);

impl Part {
    pub fn begin(rt: &HostRuntime) -> anyhow::Result<Part> {
        Ok(Part(Instant::now(rt)?))
    }

    pub fn end(self, rt: &HostRuntime) -> anyhow::Result<Duration> {
        Ok(self.0.elapsed(rt)?)
    }
}

impl Times {
    pub fn new(heap: Global, shown: bool) -> Times {
        Times {
            lines: String::new(heap),
            shown,
        }
    }

    // What was done, and in how long a time.
    pub fn push<D: Display + Drop>(&mut self, done: D, spent: Duration) -> anyhow::Result<()> {
        write!(self.lines, "{done}")?;
        self.push_time(spent)?;
        Ok(())
    }

    fn push_time(&mut self, spent: Duration) -> Result<(), AllocError> {
        if self.shown {
            let nanoseconds = spent.as_nanos();
            write!(self.lines, " nanoseconds {nanoseconds}")?;
        }
        self.lines.push_str("\n")
    }
}
