// The list of functions.
use crate::report::parts::{write_function, write_refusal};
use addresses::Address;
use base::refusal::Refusal;
use context::tables::Context;
use provider::ModuleProvider;
use resolver::cursor::Cursor;
use resolver::resolver::Resolver;
use std::alloc::AllocError;
use std::fmt::Write;

// How many addresses stand in the table, and then the function of each that has one.
pub fn write_list<P: ModuleProvider>(
    out: &mut String,
    resolver: &mut Resolver<P>,
    context: &Context<'_>,
    count: Result<usize, Refusal>,
    addresses: &[Address],
) -> Result<(), AllocError> {
    match count {
        Ok(count) => {
            writeln!(out, "addresses {count}")?;
            let listed = addresses.get(..count).unwrap_or(addresses);
            write_listed(out, resolver, context, listed)
        }
        Err(refusal) => {
            out.push_str("list ")?;
            write_refusal(out, &refusal)
        }
    }
}

#[tactic(auto, using(resolver::proofs::Stepping::shorter))]
fn write_listed<P: ModuleProvider>(
    out: &mut String,
    resolver: &mut Resolver<P>,
    context: &Context<'_>,
    addresses: &[Address],
) -> Result<(), AllocError> {
    let mut cursor = Cursor::over(addresses);
    while let Some(function) = cursor.next(resolver, context) {
        out.push_str("listed ")?;
        write_function(out, function, resolver.name(function.name))?;
    }
    Ok(())
}
