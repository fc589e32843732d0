//! What the words of a scheduler that serves connections ask for.

ghost use Rattle.std.specs.Prelude.{◌≡◌, option_map};
ghost use Rattle.session.specs.Words.{file_at};

use session::Form;

/// `serve STORE PORT WORKERS CONNECTIONS`: the farm of that store, which is `:memory:` for one that begins empty and isn't kept, and else the path of a file;
/// the port to listen at; how many workers answer connections beside each other; and how many connections are accepted before the call ends.
#[derive(Clone, Copy, Debug, PartialEq, Eq)]
pub struct ServeForm<'a> {
    pub store: &'a str,
    pub port: u16,
    pub workers: u32,
    pub connections: u32,
}

impl<'a> ServeForm<'a> {
    /// The path of the file that keeps the farm. There is none of a farm in memory.
    pub fn file(self) -> Option<&'a str>
        ensures { option_map (λ path. path.now) result ≡ file_at self.entry.store.now }
    {
        Form::Script { store: self.store }.file()
    }
}
