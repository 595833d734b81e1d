// How an answer is told: its number, and the words or bytes that were written or are needed.
ghost use Rattle.std.specs.Prelude.{◌≡◌};

#[derive(Clone, Copy)]
pub struct Row {
    pub number: u32,
    pub extent: usize,
}

// So many words or bytes were written.
pub fn done(extent: usize) -> Row
    ensures { (result.number ≡ 0) × (result.extent ≡ extent) }
{
    Row { number: 0, extent }
}

// There is no room: so many words or bytes are needed.
pub fn no_room(need: usize) -> Row
    ensures { (result.number ≡ 46) × (result.extent ≡ need) }
{
    Row {
        number: 46,
        extent: need,
    }
}

// A refusal with a number alone.
pub fn refused(number: u32) -> Row
    ensures { (result.number ≡ number) × (result.extent ≡ 0) }
{
    Row { number, extent: 0 }
}
