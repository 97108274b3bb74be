//! What the words after the program's name ask for.
ghost use Rattle.std.specs.Prelude.{◌≡◌};
ghost use Rattle.tpdraw.specs.Asked.{start, after, with_number, with_nodes, with_word};

use crate::node_list::read_nodes;
use tp_draw::{Form, Kind, Nodes};
use tp_schedule::value::read_number;

/// What the next word is.
#[derive(Clone, Copy)]
pub(crate) enum Want {
    /// An option.
    Option,
    /// The number of the first line.
    First,
    /// The number of the last line.
    Last,
    /// The numbers of the nodes.
    Nodes,
}

/// What the words so far ask for.
#[derive(Drop)]
pub(crate) struct Asking {
    pub form: Form,
    pub want: Want,
}

impl Asking {
    /// What no words ask for: all lines with their text, in SVG.
    pub(crate) fn new() -> Asking
        ensures { result ≡ start }
    {
        Asking {
            form: Form {
                kind: Kind::Svg,
                lanes: false,
                fold: false,
                from: None,
                to: None,
                nodes: Nodes::none(),
            },
            want: Want::Option,
        }
    }

    /// What they ask for with this word too; None where it means nothing.
    pub(crate) fn after(self, word: &str) -> Option<Asking>
        ensures { result ≡ after self word.now }
    {
        match self.want {
            Want::Option => with_word(self.form, word),
            Want::First => with_number(self.form, true, word),
            Want::Last => with_number(self.form, false, word),
            Want::Nodes => with_nodes(self.form, word),
        }
    }
}

fn with_number(form: Form, first: bool, word: &str) -> Option<Asking>
    ensures { result ≡ with_number form first word.now }
{
    let Ok(number) = read_number(word.as_bytes()) else {
        return None;
    };
    let want = Want::Option;
    if first {
        let from = Some(number);
        let form = Form { from, ..form };
        Some(Asking { form, want })
    } else {
        let to = Some(number);
        let form = Form { to, ..form };
        Some(Asking { form, want })
    }
}

fn with_nodes(form: Form, word: &str) -> Option<Asking>
    ensures { result ≡ with_nodes form word.now }
{
    let nodes = read_nodes(word.as_bytes())?;
    let want = Want::Option;
    let form = Form { nodes, ..form };
    Some(Asking { form, want })
}

fn with_word(form: Form, word: &str) -> Option<Asking>
    ensures { result ≡ with_word form word.now }
{
    let want = Want::Option;
    if word == "--mermaid" {
        let kind = Kind::Mermaid;
        let form = Form { kind, ..form };
        return Some(Asking { form, want });
    }
    if word == "--html" {
        let kind = Kind::Html;
        let form = Form {
            kind,
            lanes: true,
            ..form
        };
        return Some(Asking { form, want });
    }
    if word == "--lanes" {
        let form = Form {
            lanes: true,
            ..form
        };
        return Some(Asking { form, want });
    }
    if word == "--fold" {
        let form = Form { fold: true, ..form };
        return Some(Asking { form, want });
    }
    if word == "--from" {
        let want = Want::First;
        return Some(Asking { form, want });
    }
    if word == "--to" {
        let want = Want::Last;
        return Some(Asking { form, want });
    }
    if word == "--nodes" {
        let want = Want::Nodes;
        return Some(Asking { form, want });
    }
    None
}
