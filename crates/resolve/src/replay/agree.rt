// When a line that was answered before and a line of the port are the same answer.

// A refusal, as a line tells it: what stands before it, its number, and the parts that tell more.
#[derive(Clone, Copy)]
struct Refused<'a> {
    before: &'a str,
    number: &'a str,
    parts: &'a str,
}

// Lines are the same, or tell of refusals that stand after the same words and have the same number, and the port tells all that was told before.
pub fn agree(known: &str, port: &str) -> bool {
    if known == port {
        return true;
    }
    match (refusal_in(known), refusal_in(port)) {
        (Some(known), Some(port)) => {
            known.before == port.before
                && known.number == port.number
                && all_told(known.parts, port.parts)
        }
        _ => false,
    }
}

fn refusal_in(line: &str) -> Option<Refused<'_>> {
    let (before, rest) = line.split_once("refused ")?;
    let (number, parts) = rest.split_once(": ")?;
    Some(Refused {
        before,
        number,
        parts,
    })
}

fn all_told(known: &str, port: &str) -> bool {
    known.split(", ").all(|part| is_told(part, port))
}

fn is_told(part: &str, port: &str) -> bool {
    port.split(", ").any(|told| told == part)
}
