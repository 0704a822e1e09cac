// What a header's messages come to: how many there are, and what there is of each type that decides the object's kind.
#![tactic(auto)]

ghost use Rattle.std.specs.Prelude.{◌≡◌, List, [], ◌∷◌, ◌++◌, ℕ, ◌+◌, min};
ghost use Rattle.format.specs.Message.{Message};
ghost use Rattle.tally.specs.Tally.{Placed, message_at, IsFirst, Tallied};

// What a header has of one type: no message, one, or more. The place is that of the first one's body.
#[derive(Clone, Copy)]
pub enum Occurrence {
    Absent,
    Once(usize),
    Repeated(usize),
}

// The total is the number of messages, or 65,536 for as many and more: no message count is as high.
#[derive(Clone, Copy)]
pub struct Tally {
    pub total: usize,
    pub space: Occurrence,
    pub datatype: Occurrence,
    pub layout: Occurrence,
    pub table: Occurrence,
}

pub fn empty() -> Tally
    ensures { (im : List ℕ) → Tallied im [] result }
{
    Tally {
        total: 0,
        space: Occurrence::Absent,
        datatype: Occurrence::Absent,
        layout: Occurrence::Absent,
        table: Occurrence::Absent,
    }
}

fn one_more(earlier: Occurrence, place: usize) -> Occurrence
    ensures { (im : List ℕ) (ms : List Message) (type : ℕ) → Placed im type place → IsFirst im ms type earlier →
        IsFirst im (ms ++ (message_at im type place ∷ [])) type result }
{
    match earlier {
        Occurrence::Absent => Occurrence::Once(place),
        Occurrence::Once(first) => Occurrence::Repeated(first),
        Occurrence::Repeated(first) => Occurrence::Repeated(first),
    }
}

fn next_total(total: usize) -> usize
    ensures { result ≡ min (total + 1) 65536 }
{
    total.min(65535) + 1
}

// The tally with one message more, of this type and with its body at this place.
pub fn counted(tally: Tally, kind: u64, place: usize) -> Tally
    ensures { (im : List ℕ) (ms : List Message) → Placed im kind place → Tallied im ms tally → Tallied im (ms ++ (message_at im kind place ∷ [])) result }
{
    let tally = Tally {
        total: next_total(tally.total),
        ..tally
    };
    match kind {
        0x0001 => Tally {
            space: one_more(tally.space, place),
            ..tally
        },
        0x0003 => Tally {
            datatype: one_more(tally.datatype, place),
            ..tally
        },
        0x0008 => Tally {
            layout: one_more(tally.layout, place),
            ..tally
        },
        0x0011 => Tally {
            table: one_more(tally.table, place),
            ..tally
        },
        _ => tally,
    }
}
