// The words of the rehearsal program. What a session means stands in specs/.
#![tactic(auto)]

ghost use Rattle.std.specs.Prelude.{◌≡◌};
ghost use Rattle.script.specs.Lines.{letters};

// A word: `out` is withdrawal, `drop` loss.
#[derive(Clone, Copy, Debug, PartialEq, Eq)]
pub enum Word {
    New,
    Join,
    Stab,
    Rect,
    Out,
    Drop,
    Find,
    Audit,
}

impl Word {
    // The words, in the order in which they are looked for.
    pub const ALL: [Word; 8] = [
        Word::New,
        Word::Join,
        Word::Stab,
        Word::Rect,
        Word::Out,
        Word::Drop,
        Word::Find,
        Word::Audit,
    ];

    // Its bytes.
    pub fn text(self) -> &'static [u8]
        ensures { result.now ≡ letters self }
    {
        match self {
            Word::New => b"new",
            Word::Join => b"join",
            Word::Stab => b"stab",
            Word::Rect => b"rect",
            Word::Out => b"out",
            Word::Drop => b"drop",
            Word::Find => b"find",
            Word::Audit => b"audit",
        }
    }
}
