// Calls, and their answers line by line.
use crate::report::frame_lines::write_frames;
use crate::report::list::write_list;
use crate::report::parts::{write_function, write_refusal};
use base::refusal::Refusal;
use context::tables::Context;
use procedures::function::Function;
use provider::ModuleProvider;
use resolver::resolver::Resolver;
use std::alloc::AllocError;
use std::fmt::Write;
use succession::calls::{Answer, Call, CallTables};

// Makes a call, and writes its answer.
pub fn write_call<P: ModuleProvider>(
    out: &mut String,
    resolver: &mut Resolver<P>,
    context: &Context<'_>,
    call: Call,
    tables: &mut CallTables<'_>,
) -> Result<(), AllocError> {
    let answer = call.answer(resolver, context, tables);
    write_reply(out, resolver, context, call, answer, tables)
}

// The answer to a call, with the rows that it has in the tables. The resolver is one that has answered it.
pub fn write_reply<P: ModuleProvider>(
    out: &mut String,
    resolver: &mut Resolver<P>,
    context: &Context<'_>,
    call: Call,
    answer: Answer,
    tables: &CallTables<'_>,
) -> Result<(), AllocError> {
    match answer {
        Answer::Function(found) => write_found(out, resolver, call, found),
        Answer::Frames(found) => write_frames(out, resolver, call, found, tables.frames),
        Answer::Functions(count) => write_list(out, resolver, context, count, tables.addresses),
    }
}

// Each line of an answer begins with the address that was asked for, where there is one.
pub fn write_head(out: &mut String, call: Call) -> Result<(), AllocError> {
    match call {
        Call::FindFunction(address) | Call::FindFrames(address) => write!(out, "{address:#x} "),
        Call::Functions => Ok(()),
    }
}

fn write_found<P: ModuleProvider>(
    out: &mut String,
    resolver: &Resolver<P>,
    call: Call,
    found: Result<Option<Function>, Refusal>,
) -> Result<(), AllocError> {
    write_head(out, call)?;
    match found {
        Ok(Some(function)) => {
            out.push_str("function ")?;
            write_function(out, function, resolver.name(function.name))
        }
        Ok(None) => out.push_str("none\n"),
        Err(refusal) => write_refusal(out, &refusal),
    }
}
