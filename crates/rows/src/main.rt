//! The program `rows`: it tries rows of files, each a call of `sandvec` with what it must answer, and tells those that differ.
//!
//! The words are the names of files of rows, whose form `reader` reads. For each file, one line on standard output tells how many
//! rows held; before it, each row that differs is told with what was answered. Exit status: 0 where every row held, 1 where one
//! differed, 2 where a file could not be read or is no file of rows, or there was no memory.
#![tactic(auto)]

mod reader;
mod report;
mod row;
mod trial;

use reader::{RowsRefusal, read_rows};
use report::{tell_held, tell_row};
use std::alloc::AllocError;
use std::process::ExitCode;
use std::{env, fs, io};
use thiserror::Error;
use trial::try_row;
use vx_io::{StdSink, WriteFault, write_all};

/// Why the rows were not all tried.
#[derive(Debug, Drop, Error)]
enum Stop {
    #[error("a file cannot be read, or the answer not be written")]
    Io,
    #[error("a file is no file of rows")]
    NoRows,
    #[error("no memory")]
    OutOfMemory,
}

impl From<AllocError> for Stop {
    fn from(_error: AllocError) -> Stop {
        Stop::OutOfMemory
    }
}

impl From<WriteFault> for Stop {
    fn from(_fault: WriteFault) -> Stop {
        Stop::Io
    }
}

impl From<io::Error> for Stop {
    fn from(_error: io::Error) -> Stop {
        Stop::Io
    }
}

/// Tries the rows of a file, and answers whether all held.
fn try_file(rt: &HostRuntime, name: &str) -> Result<bool, Stop> {
    let bytes = fs::read(rt, name)?;
    let mut told = Vec::new(rt.alloc());
    let mut sink = StdSink::new(rt.stdout());
    let rows = match read_rows(rt.alloc(), bytes.as_slice()) {
        Ok(rows) => rows,
        Err(RowsRefusal::OutOfMemory) => return Err(Stop::OutOfMemory),
        Err(RowsRefusal::NotARow { line }) => {
            report::tell_refusal(&mut told, rt.alloc(), name, line)?;
            write_all(&mut sink, told.as_slice())?;
            return Err(Stop::NoRows);
        }
    };
    let mut held: usize = 0;
    for row in rows.as_slice() {
        let answer = try_row(rt.alloc(), row)?;
        if answer.meets(row) {
            held = held.saturating_add(1);
        } else {
            tell_row(&mut told, rt.alloc(), name, row, &answer)?;
        }
    }
    tell_held(&mut told, rt.alloc(), name, held, rows.len())?;
    write_all(&mut sink, told.as_slice())?;
    Ok(held == rows.len())
}

/// Tries the rows of each file, and answers whether all held.
fn try_files(rt: &HostRuntime) -> Result<bool, Stop> {
    let mut all_held = true;
    for name in env::args(rt)?.skip(1) {
        if !try_file(rt, name.as_str())? {
            all_held = false;
        }
    }
    Ok(all_held)
}

fn main(rt: HostRuntime) -> ExitCode {
    match try_files(&rt) {
        Ok(true) => ExitCode::from(0),
        Ok(false) => ExitCode::from(1),
        Err(_) => ExitCode::from(2),
    }
}
