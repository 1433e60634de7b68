// The pieces of a text, handed out one after another.
ghost use Rattle.std.specs.Prelude.{◌≡◌, ◌+◌, ◌^◌, ◌<◌, ◌≤◌, ◌∷◌, length, drop, position, IfSome, MatchOption};
ghost use Rattle.std.specs.Option.{option_map};
ghost use Rattle.std.specs.List.{between};
ghost use Rattle.pieces.specs.Cuts.{cuts, pieces, pieces_at, words_at, begun};

// Where a text is cut: at newlines into lines, or at blanks into words.
// An enum and no closure, since one text is cut both ways and the definitions have these two cases.
#[derive(Clone, Copy, PartialEq, Eq, Debug)]
pub enum Cut {
    Lines,
    Words,
}

impl Cut {
    // Whether a text is cut at a byte.
    fn at(self, byte: u8) -> bool
        ensures { result ≡ cuts self byte }
    {
        match self {
            Cut::Lines => byte == b'\n',
            Cut::Words => byte == b' ' || byte == b'\t' || byte == b'\r',
        }
    }
}

// A text, and the place where its next piece begins: past its end when there is none left.
// The whole text is kept and not what is left of it: a text that ends at a cut has one more piece, an empty one.
#[derive(Clone, Copy)]
pub struct Pieces<'a> {
    pub text: &'a [u8],
    pub at: usize,
}

// Where a text is cut first.
fn first_cut(text: &[u8], cut: Cut) -> Option<usize>
    ensures { result ≡ position (cuts cut) text.now }
{
    text.iter().position(|byte| cut.at(*byte))
}

// Where the piece that begins at a place ends.
fn piece_end(text: &[u8], at: usize, cut: Cut) -> usize
    requires { at ≤ length text.now }
    ensures from { at ≤ result }
    ensures within { result ≤ length text.now }
    ensures split { pieces cut (drop at text.now) ≡ between at result text.now ∷ pieces_at cut text.now (result + 1) }
{
    let rest = &text[at..];
    at + first_cut(rest, cut).unwrap_or(rest.len())
}

impl<'a> Pieces<'a> {
    // A text from its beginning.
    pub fn new(text: &'a [u8]) -> Pieces<'a>
        ensures text { result.text.now ≡ text.now }
        ensures start { result.at ≡ 0 }
    {
        Pieces { text, at: 0 }
    }

    // The next piece, empty or not.
    pub fn next_piece(&mut self, cut: Cut) -> Option<&'a [u8]>
        ensures split { pieces_at cut self.old.text.now self.old.at ≡ begun (option_map (λ x. x.now) result) (pieces_at cut self.old.text.now self.new.at) }
        ensures text { self.new.text.now ≡ self.old.text.now }
        ensures moved { MatchOption result (self.new.at ≡ self.old.at) (λ _. (self.old.at < self.new.at) × (self.new.at ≤ length self.old.text.now + 1) × (self.new.at ≤ 2 ^ 63)) }
    {
        if self.at > self.text.len() {
            return None;
        }
        let end = piece_end(self.text, self.at, cut);
        let piece = &self.text[self.at..end];
        self.at = end + 1;
        Some(piece)
    }

    // The next word: the next piece between blanks that is not empty.
    // A loop and no chain: each turn moves the place in the text, and the proof follows it.
    pub fn next_word(&mut self) -> Option<&'a [u8]>
        ensures split { words_at self.old.text.now self.old.at ≡ begun (option_map (λ x. x.now) result) (words_at self.old.text.now self.new.at) }
        ensures text { self.new.text.now ≡ self.old.text.now }
        ensures some { IfSome result (λ word. 0 < length word.now) }
    {
        while let Some(piece) = self.next_piece(Cut::Words) {
            if !piece.is_empty() {
                return Some(piece);
            }
        }
        None
    }
}
