// The answers to what is asked of an image.
use crate::report::asked::{Asked, Form};
use crate::report::check::write_check;
use crate::report::parts::write_refusal;
use crate::report::reply::{write_call, write_reply};
use crate::report::stack_lines::write_stack;
use addresses::Address;
use base::refusal::Refusal;
use context::tables::Context;
use description::Description;
use description::question::Question;
use frames::frame::Frame;
use procedures::function::Function;
use provider::ModuleProvider;
use resolver::resolver::Resolver;
use std::alloc::{AllocError, Global};
use std::fmt::Write;
use succession::answers::answer_all;
use succession::calls::{Answer, Call, CallTables};

// First what the description asks, then what else is asked.
pub fn write_answers<P: ModuleProvider + Drop>(
    heap: Global,
    out: &mut String,
    provider: P,
    context: &Context<'_>,
    description: &Description,
    asked: &Asked,
    found: &mut [Result<Option<Function>, Refusal>],
) -> Result<(), AllocError> {
    let mut resolver = answer_all(provider, context, asked.of_functions(), found);
    let mut frames = vec![in heap; Frame::empty(); description.frame_rows]?;
    let mut listed = vec![in heap; Address::default(); description.address_rows]?;
    let mut tables = CallTables {
        frames: frames.as_mut_slice(),
        addresses: listed.as_mut_slice(),
    };
    for question in description.questions.iter() {
        write_answer(out, &mut resolver, context, *question, &mut tables)?;
    }
    write_addresses(out, &mut resolver, context, &mut tables, asked, found)?;
    for (first, second) in asked.pairs.iter() {
        write_same(out, &mut resolver, context, *first, *second)?;
    }
    if asked.list {
        write_call(out, &mut resolver, context, Call::Functions, &mut tables)?;
    }
    if asked.check {
        let checked = checked_addresses(heap, description, asked.addresses.as_slice())?;
        write_check(
            heap,
            out,
            &mut resolver,
            context,
            &mut tables,
            description,
            checked.as_slice(),
        )?;
    }
    Ok(())
}

// The addresses, in the form that is wanted. Those in the form of functions have been looked up.
fn write_addresses<P: ModuleProvider>(
    out: &mut String,
    resolver: &mut Resolver<P>,
    context: &Context<'_>,
    tables: &mut CallTables<'_>,
    asked: &Asked,
    found: &[Result<Option<Function>, Refusal>],
) -> Result<(), AllocError> {
    let addresses = asked.addresses.as_slice();
    match asked.form {
        Form::Function => {
            for (address, found) in addresses.iter().zip(found.iter()) {
                let call = Call::FindFunction(*address);
                write_reply(
                    out,
                    resolver,
                    context,
                    call,
                    Answer::Function(*found),
                    tables,
                )?;
            }
        }
        Form::Frames => {
            for address in addresses {
                write_call(out, resolver, context, Call::FindFrames(*address), tables)?;
            }
        }
        Form::Stack => {
            for address in addresses {
                write_stack(out, resolver, context, tables.frames, *address)?;
            }
        }
    }
    Ok(())
}

fn write_answer<P: ModuleProvider>(
    out: &mut String,
    resolver: &mut Resolver<P>,
    context: &Context<'_>,
    question: Question,
    tables: &mut CallTables<'_>,
) -> Result<(), AllocError> {
    match question {
        Question::Find(address) => {
            write_call(out, resolver, context, Call::FindFunction(address), tables)
        }
        Question::Frames(address) => {
            write_call(out, resolver, context, Call::FindFrames(address), tables)
        }
        Question::List => write_call(out, resolver, context, Call::Functions, tables),
        Question::Same(first, second) => write_same(out, resolver, context, first, second),
    }
}

// Where one of the two has no function, nothing is known.
fn write_same<P: ModuleProvider>(
    out: &mut String,
    resolver: &mut Resolver<P>,
    context: &Context<'_>,
    first: u32,
    second: u32,
) -> Result<(), AllocError> {
    write!(out, "same {first:#x} {second:#x} ")?;
    match resolver.same_function(context, first, second) {
        Ok(Some(true)) => out.push_str("yes\n"),
        Ok(Some(false)) => out.push_str("no\n"),
        Ok(None) => out.push_str("unknown\n"),
        Err(refusal) => write_refusal(out, &refusal),
    }
}

// The addresses of the rows `find` and `frames`, and then the others.
fn checked_addresses(
    heap: Global,
    description: &Description,
    addresses: &[u32],
) -> Result<Vec<u32>, AllocError> {
    let mut checked = Vec::new(heap);
    for question in description.questions.iter() {
        if let Question::Find(address) | Question::Frames(address) = *question {
            checked.push(address)?;
        }
    }
    for address in addresses {
        checked.push(*address)?;
    }
    Ok(checked)
}
