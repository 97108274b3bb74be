//! The lines of a made schedule.
ghost use Rattle.std.specs.Prelude.{◌≡◌, ◌≤◌, true};
ghost use Rattle.tp_names.specs.Bytes.{is_site_name};
ghost use Rattle.tp_model.specs.Generator.{node_line, site_name};
ghost use Rattle.tp_generate.specs.Parts.{part_line};

use crate::part::Part;
use tp_model::{Line, LineRequest};
use tp_names::SiteName;

/// Shared control, commitment, and transactions that are not chained.
const UNITS: u8 = 41;

/// The line of a node in a part.
pub fn part_line(part: Part, node: u16) -> Line
    requires { 1 ≤ node }
    ensures { result ≡ part_line part node }
{
    let superior = node / 2;
    match part {
        Part::Declared => node_line(node),
        Part::Opened => Line::Do {
            node: superior,
            request: LineRequest::BeginDialogue {
                peer: node,
                units: UNITS,
            },
        },
        Part::Accepted => Line::Do {
            node,
            request: LineRequest::Accept { units: UNITS },
        },
        Part::Begun => Line::Do {
            node: superior,
            request: LineRequest::BeginTransaction { peer: node },
        },
        Part::Done => Line::Do {
            node,
            request: LineRequest::Done,
        },
    }
}

fn node_line(node: u16) -> Line
    requires { 1 ≤ node }
    ensures { result ≡ node_line node }
{
    let under = if node == 1 { None } else { Some(node / 2) };
    Line::Node {
        node,
        site: site_of(node),
        under,
    }
}

// The site of a node, one of sixteen in turn.
#[tactic(auto, using(crate::proofs::Sites::one_digit, crate::proofs::Sites::two_digits, crate::proofs::Sites::one_is_name, crate::proofs::Sites::two_are_name))]
fn site_of(node: u16) -> SiteName
    requires { 1 ≤ node }
    ensures { result ≡ site_name node }
{
    let place = 1 + (node - 1) % 16;
    let digit = b'0' + (place % 10) as u8;
    if place < 10 {
        name(&[b's', digit])
    } else {
        name(&[b's', b'1', digit])
    }
}

fn name(bytes: &[u8]) -> SiteName
    requires { is_site_name bytes.now ≡ true }
    ensures { result ≡ bytes.now }
{
    match SiteName::new(bytes) {
        Some(site) => site,
        None => unreachable!(),
    }
}
