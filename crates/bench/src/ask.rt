// The questions, part by part.
use crate::places::{Places, of_one_module};
use crate::tally::Tally;
use crate::times::{Part, Times};
use addresses::Address;
use context::tables::Context;
use description::Description;
use frames::frame::Frame;
use image::ImageSource;
use provider::ModuleProvider;
use resolver::cursor::Cursor;
use resolver::resolver::Resolver;

// How many addresses are asked in each part, and how many of them of new resolvers.
const ASKED: usize = 10_000;

const COLD: usize = 8;

// Addresses, and what the lines of their answers begin with.
#[derive(Clone, Copy)]
struct Batch<'a> {
    name: &'a str,
    addresses: &'a [u32],
}

// `near` addresses lie in one module, `far` ones in any.
pub fn write_answers<P: ModuleProvider + Drop>(
    rt: &HostRuntime,
    times: &mut Times,
    provider: P,
    context: &Context<'_>,
    description: &Description,
) -> anyhow::Result<()> {
    let heap = rt.alloc();
    let rows = description.image.contributions.as_slice();
    let of_one = of_one_module(heap, rows)?;
    let mut places = Places::over(description.image.sections.as_slice());
    let near = places.addresses(heap, of_one.as_slice(), ASKED)?;
    let far = places.addresses(heap, rows, ASKED)?;
    let near = Batch {
        name: "near",
        addresses: near.as_slice(),
    };
    let far = Batch {
        name: "far",
        addresses: far.as_slice(),
    };
    let mut resolver = ask_cold(rt, times, provider, context, far.addresses)?;
    ask_batches(rt, times, &mut resolver, context, description, &[near, far])?;
    ask_list(rt, times, &mut resolver, context, description.address_rows)
}

// All is asked of one resolver.
fn ask_batches<P: ModuleProvider>(
    rt: &HostRuntime,
    times: &mut Times,
    resolver: &mut Resolver<P>,
    context: &Context<'_>,
    description: &Description,
    batches: &[Batch<'_>],
) -> anyhow::Result<()> {
    for batch in batches {
        ask_functions(rt, times, resolver, context, *batch)?;
    }
    let mut rows = vec![in rt.alloc(); Frame::empty(); description.frame_rows]?;
    for batch in batches {
        ask_frames(rt, times, resolver, context, rows.as_mut_slice(), *batch)?;
    }
    Ok(())
}

// Each address is asked of a new resolver. The last one is left.
fn ask_cold<P: ModuleProvider + Drop>(
    rt: &HostRuntime,
    times: &mut Times,
    provider: P,
    context: &Context<'_>,
    addresses: &[u32],
) -> anyhow::Result<Resolver<P>> {
    let part = Part::begin(rt)?;
    let mut tally = Tally::default();
    let mut resolver = Resolver::open(provider);
    for address in addresses.iter().take(COLD) {
        let Resolver { provider, .. } = resolver;
        resolver = Resolver::open(provider);
        let answer = resolver.find_function(context, *address);
        tally.add_function(resolver.provider.text(), answer);
    }
    let spent = part.end(rt)?;
    times.push(format_args!("cold {tally}"), spent)?;
    Ok(resolver)
}

fn ask_functions<P: ModuleProvider>(
    rt: &HostRuntime,
    times: &mut Times,
    resolver: &mut Resolver<P>,
    context: &Context<'_>,
    batch: Batch<'_>,
) -> anyhow::Result<()> {
    let part = Part::begin(rt)?;
    let mut tally = Tally::default();
    for address in batch.addresses {
        let answer = resolver.find_function(context, *address);
        tally.add_function(resolver.provider.text(), answer);
    }
    let spent = part.end(rt)?;
    let name = batch.name;
    times.push(format_args!("{name} {tally}"), spent)
}

fn ask_frames<P: ModuleProvider>(
    rt: &HostRuntime,
    times: &mut Times,
    resolver: &mut Resolver<P>,
    context: &Context<'_>,
    rows: &mut [Frame],
    batch: Batch<'_>,
) -> anyhow::Result<()> {
    let part = Part::begin(rt)?;
    let mut tally = Tally::default();
    for address in batch.addresses {
        let answer = resolver.find_frames(context, *address, rows);
        tally.add_frames(resolver.provider.text(), answer, rows);
    }
    let spent = part.end(rt)?;
    let name = batch.name;
    times.push(format_args!("{name}-frames {tally}"), spent)
}

fn ask_list<P: ModuleProvider>(
    rt: &HostRuntime,
    times: &mut Times,
    resolver: &mut Resolver<P>,
    context: &Context<'_>,
    rows: usize,
) -> anyhow::Result<()> {
    let part = Part::begin(rt)?;
    let mut table = vec![in rt.alloc(); Address::default(); rows]?;
    let count = resolver.functions(context, table.as_mut_slice());
    let spent = part.end(rt)?;
    match count {
        Ok(count) => {
            times.push(format_args!("list addresses {count}"), spent)?;
            let listed = table.as_slice();
            ask_cursor(
                rt,
                times,
                resolver,
                context,
                listed.get(..count).unwrap_or(listed),
            )
        }
        Err(refusal) => times.push(format_args!("list refused {}", refusal.number()), spent),
    }
}

fn ask_cursor<P: ModuleProvider>(
    rt: &HostRuntime,
    times: &mut Times,
    resolver: &mut Resolver<P>,
    context: &Context<'_>,
    addresses: &[Address],
) -> anyhow::Result<()> {
    let part = Part::begin(rt)?;
    let tally = tally_list(resolver, context, addresses);
    let spent = part.end(rt)?;
    times.push(format_args!("cursor {tally}"), spent)
}

#[tactic(auto, using(resolver::proofs::Stepping::shorter))]
fn tally_list<P: ModuleProvider>(
    resolver: &mut Resolver<P>,
    context: &Context<'_>,
    addresses: &[Address],
) -> Tally {
    let mut tally = Tally::default();
    let mut cursor = Cursor::over(addresses);
    while let Some(function) = cursor.next(resolver, context) {
        tally.add_function(resolver.provider.text(), Ok(Some(function)));
    }
    tally
}
