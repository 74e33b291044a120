// The kinds of records.

// What a record is.
#[derive(Clone, Copy)]
pub enum Kind {
    // a description, of this kind
    Description(u32),
    // values that were received
    Channel,
    // of another kind, which is skipped
    Other(u32),
}

impl From<u32> for Kind {
    ghost use Rattle.std.specs.Prelude.{◌≡◌};
    ghost use Rattle.receive_record.specs.Clauses.{kind_of};

    ghost from_gives = { λ number kind. kind ≡ kind_of number };

    fn from(number: u32) -> Kind {
        match number {
            _ if code::is_description(number) => Kind::Description(number),
            2 => Kind::Channel,
            _ => Kind::Other(number),
        }
    }
}
