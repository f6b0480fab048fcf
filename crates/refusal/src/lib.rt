// The refusal numbers of document 01's table, one case each. Every layer answers with them.
#![tactic(auto)]

ghost use Rattle.std.specs.Prelude.{◌≡◌};
ghost use Rattle.refusal.specs.Refusal.{number_of};

#[derive(Clone, Copy, Debug, PartialEq, Eq)]
pub enum Refusal {
    // the telegram ends inside a field
    EndsInField = 1,
    // a number is too large, not shortest, or has five bytes with the high bit set
    BadNumber = 2,
    // wrong telegram kind for the call
    WrongKind = 3,
    // a count or length outside its range
    OutOfRange = 4,
    // bytes follow the last field
    BytesFollow = 5,
    // a name with a wrong byte, or twice
    BadName = 6,
    // a name that is no member
    NoMember = 7,
    // list shorter than the sender's known row, or differing in it
    ListDiffers = 8,
    // a place not below its count
    BadPlace = 9,
    // the sender, or any event's origin, is ourselves
    FromOurselves = 10,
    // event number 0, or not equal to its version's entry for its origin; in a join, the other's origin entry is 0
    BadEventNumber = 11,
    // more than 64 would wait
    InboxFull = 12,
    // more than 256 would be in the outbox
    OutboxFull = 13,
    // own number is already 4,294,967,295
    LastNumber = 14,
    // the answer is longer than the buffer lent
    BufferShort = 15,
}

impl Refusal {
    // The number that document 01 gives the refusal.
    pub fn number(self) -> u8
        ensures { result ≡ number_of self }
    {
        self as u8
    }
}
