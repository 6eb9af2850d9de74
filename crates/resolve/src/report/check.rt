// Whether what was answered before makes a difference. Calls are made on the resolver at hand and on fresh ones, and the answers are compared as
// they are printed.
use crate::report::parts::write_refusal;
use crate::report::reply::{write_call, write_reply};
use addresses::Address;
use context::tables::Context;
use description::Description;
use frames::frame::Frame;
use opening::open;
use provider::ModuleProvider;
use resolver::resolver::Resolver;
use std::alloc::{AllocError, Global};
use std::fmt::Write;
use succession::calls::{Call, CallTables, answer_after};

// What fresh resolvers are opened on, one after another, and the rows of their tables. These are not the tables of the resolver at hand: a row
// that a call leaves out is not found there from another call.
#[derive(Drop)]
struct Fresh<P> {
    provider: P,
    frames: Vec<Frame>,
    addresses: Vec<Address>,
}

impl<P: ModuleProvider + Drop> Fresh<P> {
    // Writes what a fresh resolver answers after some calls.
    fn write(
        self,
        out: &mut String,
        context: &Context<'_>,
        calls: &[Call],
        last: Call,
    ) -> Result<Fresh<P>, AllocError> {
        let Fresh {
            provider,
            mut frames,
            mut addresses,
        } = self;
        let mut tables = CallTables {
            frames: frames.as_mut_slice(),
            addresses: addresses.as_mut_slice(),
        };
        let (mut resolver, answer) = answer_after(provider, context, calls, last, &mut tables);
        write_reply(out, &mut resolver, context, last, answer, &tables)?;
        let Resolver { provider, .. } = resolver;
        Ok(Fresh {
            provider,
            frames,
            addresses,
        })
    }
}

pub fn write_check<P: ModuleProvider>(
    heap: Global,
    out: &mut String,
    resolver: &mut Resolver<P>,
    context: &Context<'_>,
    tables: &mut CallTables<'_>,
    description: &Description,
    addresses: &[u32],
) -> Result<(), AllocError> {
    let provider = match open(description) {
        Ok(provider) => provider,
        Err(refusal) => return write_refusal(out, &refusal),
    };
    let fresh = Fresh {
        provider,
        frames: vec![in heap; Frame::empty(); description.frame_rows]?,
        addresses: vec![in heap; Address::default(); description.address_rows]?,
    };
    let fresh = check_addresses(heap, out, resolver, context, tables, fresh, addresses)?;
    writeln!(out, "checked {} addresses", addresses.len())?;
    check_list(heap, out, resolver, context, tables, fresh, addresses)
}

fn check_addresses<P: ModuleProvider, F: ModuleProvider + Drop>(
    heap: Global,
    out: &mut String,
    resolver: &mut Resolver<P>,
    context: &Context<'_>,
    tables: &mut CallTables<'_>,
    fresh: Fresh<F>,
    addresses: &[u32],
) -> Result<Fresh<F>, AllocError> {
    let mut fresh = fresh;
    for address in addresses {
        let mut known = String::new(heap);
        let mut lines = String::new(heap);
        for call in calls_for(*address) {
            write_call(&mut known, resolver, context, call, tables)?;
            fresh = fresh.write(&mut lines, context, &[], call)?;
        }
        let verdict = verdict(known == lines);
        writeln!(out, "check {address:#x} {verdict}")?;
    }
    Ok(fresh)
}

// The list is that of a fresh resolver, and that of one which has made all the calls before.
fn check_list<P: ModuleProvider, F: ModuleProvider + Drop>(
    heap: Global,
    out: &mut String,
    resolver: &mut Resolver<P>,
    context: &Context<'_>,
    tables: &mut CallTables<'_>,
    fresh: Fresh<F>,
    addresses: &[u32],
) -> Result<(), AllocError> {
    let mut calls = Vec::new(heap);
    for address in addresses {
        for call in calls_for(*address) {
            calls.push(call)?;
        }
    }
    let mut known = String::new(heap);
    let mut alone = String::new(heap);
    let mut last = String::new(heap);
    write_call(&mut known, resolver, context, Call::Functions, tables)?;
    let fresh = fresh.write(&mut alone, context, &[], Call::Functions)?;
    let _fresh = fresh.write(&mut last, context, calls.as_slice(), Call::Functions)?;
    let verdict = verdict(known == alone && known == last);
    writeln!(out, "list {verdict}")
}

fn calls_for(address: u32) -> [Call; 2] {
    [Call::FindFunction(address), Call::FindFrames(address)]
}

fn verdict(same: bool) -> &'static str {
    if same { "agrees" } else { "differs" }
}
