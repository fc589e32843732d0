//! What the words of a program ask for.

ghost use Rattle.std.specs.Prelude.{◌≡◌, option_map};
ghost use Rattle.session.specs.Words.{file_at, file_of, word_form};

// The store in memory.
const MEMORY: &str = ":memory:";

/// What the words after the program's name ask for.
#[derive(Clone, Copy, Debug, PartialEq, Eq)]
pub enum Form<'a> {
    /// `demo`: the farm of the demonstration, over standard input and output.
    Demo,
    /// `script STORE`: the farm of that store, which is `:memory:` for one that begins empty and isn't kept, and else the path of a file.
    Script { store: &'a str },
    /// `load N`: the farm of a load of that many frames a layer, from 1 to 5,000, which is run to the end of its job. No input is taken.
    Load { n: u32 },
}

impl<'a> Form<'a> {
    /// The path of the file that keeps the farm. There is none of a farm in memory.
    pub fn file(self) -> Option<&'a str>
        ensures { option_map (λ path. path.now) result ≡ file_of (word_form self.entry) }
    {
        match self {
            Form::Script { store } => file_at(store),
            Form::Demo | Form::Load { .. } => None,
        }
    }
}

// The file of a store, where it isn't the one in memory.
fn file_at(store: &str) -> Option<&str>
    ensures { option_map (λ path. path.now) result ≡ file_at store.now }
{
    if store == MEMORY {
        return None;
    }
    Some(store)
}
