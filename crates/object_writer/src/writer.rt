//! The text of an object as it is written, a token at a time into one buffer.

ghost use Rattle.std.specs.Prelude.{◌≡◌, ◌∷◌, [], IfOk, OnOk, decimal, true};
ghost use Rattle.std.specs.Fmt.{signed_decimal};
ghost use Rattle.json.specs.Token.{begin_array, begin_object, boolean, end_array, end_object, key, number, string};
ghost use Rattle.json.specs.Print.{print};
ghost use Rattle.object_writer.specs.Tokens.{added};
ghost use Rattle.object_writer.specs.Written.{is_plain};

use crate::put::truth_word;
use crate::text::{
    write_bare, write_member, write_number, write_quoted, write_signed, write_text, write_word,
};
use farm_types::{AllocNo, Cores, HostNo, Items, JobNo, Kb, ShowNo, Slot, Text, Version};
use std::alloc::{AllocError, Global};
use std::marker::Model;

// Most lines and rows need no more.
const FIRST_ROOM: usize = 1024;

/// An object as far as it is written, which contracts see as its tokens. Commas and colons are placed by themselves.
#[derive(Drop)]
pub struct ObjectWriter {
    room: Vec<u8>,
    len: usize,
    after_value: bool,
}

impl Model for ObjectWriter {
    ghost use Rattle.std.specs.Prelude.{List, take};
    ghost use Rattle.json.specs.Lex.{tokens};
    ghost use Rattle.json.specs.Token.{Token, tokens_code};
    ghost use Rattle.object_writer.specs.Written.{FillsRoom};

    ghost Value = { List Token };

    ghost coded = { tokens_code };

    ghost view = { λ writer. tokens (take writer.len writer.room.items) };

    ghost invariant = { λ writer. FillsRoom writer.room.items writer.len writer.after_value };
}

impl ObjectWriter {
    /// Nothing yet.
    pub fn new(alloc: Global) -> Result<ObjectWriter, AllocError>
        ensures { IfOk result (λ writer. writer ≡ []) }
    {
        Ok(ObjectWriter::over(Vec::with_capacity(alloc, FIRST_ROOM)?))
    }

    /// Nothing yet, to be written into memory that is there. What it holds goes.
    pub fn over(room: Vec<u8>) -> ObjectWriter
        ensures { result ≡ [] }
    {
        ObjectWriter {
            room,
            len: 0,
            after_value: false,
        }
    }

    /// The bytes of what was written.
    pub fn bytes(&self) -> &[u8]
        ensures { result.now ≡ print self.now }
    {
        &self.room.as_slice()[..self.len]
    }

    /// The memory that it was written into.
    pub fn into_room(self) -> Vec<u8> {
        let ObjectWriter { room, .. } = self;
        room
    }

    /// The text of what was written, with no copy.
    pub fn into_text(self) -> Text
        ensures { result ≡ print self }
    {
        let ObjectWriter { room, len, .. } = self;
        let mut room = room;
        room.truncate(len);
        match String::from_utf8(room) {
            Ok(string) => Text::from_string(string),
            Err(_) => unreachable!(),
        }
    }

    /// The same as bytes.
    pub fn into_bytes(self) -> Items<u8>
        ensures { result ≡ print self }
    {
        let ObjectWriter { room, len, .. } = self;
        let mut room = room;
        room.truncate(len);
        Items::from_vec(room)
    }

    /// The beginning of an object: of the whole, or of an item of a list.
    #[inline(always)]
    pub fn begin_object(&mut self) -> Result<(), AllocError>
        ensures { OnOk result (self.new ≡ added self.old (begin_object ∷ [])) }
    {
        self.len = write_bare(&mut self.room, self.len, self.after_value, b"{")?;
        self.after_value = false;
        Ok(())
    }

    /// The end of the object.
    #[inline(always)]
    pub fn end_object(&mut self) -> Result<(), AllocError>
        ensures { OnOk result (self.new ≡ added self.old (end_object ∷ [])) }
    {
        self.len = write_bare(&mut self.room, self.len, false, b"}")?;
        self.after_value = true;
        Ok(())
    }

    /// The key of a member whose value is written next.
    #[inline(always)]
    pub fn key(&mut self, name: &str) -> Result<(), AllocError>
        requires { is_plain name.now ≡ true }
        ensures { OnOk result (self.new ≡ added self.old (key name.now ∷ [])) }
    {
        self.len = write_member(&mut self.room, self.len, self.after_value, name, b"")?;
        self.after_value = false;
        Ok(())
    }

    /// A member that is a list, up to its first item.
    #[inline(always)]
    pub fn begin_list(&mut self, name: &str) -> Result<(), AllocError>
        requires { is_plain name.now ≡ true }
        ensures { OnOk result (self.new ≡ added self.old (key name.now ∷ begin_array ∷ [])) }
    {
        self.len = write_member(&mut self.room, self.len, self.after_value, name, b"[")?;
        self.after_value = false;
        Ok(())
    }

    /// The end of the list.
    #[inline(always)]
    pub fn end_list(&mut self) -> Result<(), AllocError>
        ensures { OnOk result (self.new ≡ added self.old (end_array ∷ [])) }
    {
        self.len = write_bare(&mut self.room, self.len, false, b"]")?;
        self.after_value = true;
        Ok(())
    }

    /// A member that is a whole number.
    #[inline(always)]
    pub fn whole(&mut self, name: &str, value: u64) -> Result<(), AllocError>
        requires { is_plain name.now ≡ true }
        ensures { OnOk result (self.new ≡ added self.old (key name.now ∷ number (decimal value) ∷ [])) }
    {
        self.len = write_number(&mut self.room, self.len, self.after_value, name, value)?;
        self.after_value = true;
        Ok(())
    }

    /// A member that is an amount of cores, in hundredths of a core.
    #[inline(always)]
    pub fn cores(&mut self, name: &str, cores: Cores) -> Result<(), AllocError>
        requires { is_plain name.now ≡ true }
        ensures { OnOk result (self.new ≡ added self.old (key name.now ∷ number (decimal cores) ∷ [])) }
    {
        self.whole(name, u64::from(cores.0))
    }

    /// A member that is an amount of memory, in KB.
    #[inline(always)]
    pub fn memory(&mut self, name: &str, memory: Kb) -> Result<(), AllocError>
        requires { is_plain name.now ≡ true }
        ensures { OnOk result (self.new ≡ added self.old (key name.now ∷ number (decimal memory) ∷ [])) }
    {
        self.whole(name, memory.0)
    }

    /// A member that is the number of a frame slot.
    #[inline(always)]
    pub fn slot(&mut self, name: &str, slot: Slot) -> Result<(), AllocError>
        requires { is_plain name.now ≡ true }
        ensures { OnOk result (self.new ≡ added self.old (key name.now ∷ number (decimal slot) ∷ [])) }
    {
        self.whole(name, u64::from(slot.0))
    }

    /// A member that is the version of a slot.
    #[inline(always)]
    pub fn version(&mut self, name: &str, version: Version) -> Result<(), AllocError>
        requires { is_plain name.now ≡ true }
        ensures { OnOk result (self.new ≡ added self.old (key name.now ∷ number (decimal version) ∷ [])) }
    {
        self.whole(name, u64::from(version.0))
    }

    /// A member that is a job's number.
    #[inline(always)]
    pub fn job(&mut self, name: &str, job: JobNo) -> Result<(), AllocError>
        requires { is_plain name.now ≡ true }
        ensures { OnOk result (self.new ≡ added self.old (key name.now ∷ number (decimal job) ∷ [])) }
    {
        self.whole(name, u64::from(job.0))
    }

    /// A member that is a show's number.
    #[inline(always)]
    pub fn show(&mut self, name: &str, show: ShowNo) -> Result<(), AllocError>
        requires { is_plain name.now ≡ true }
        ensures { OnOk result (self.new ≡ added self.old (key name.now ∷ number (decimal show) ∷ [])) }
    {
        self.whole(name, u64::from(show.0))
    }

    /// A member that is an allocation's number.
    #[inline(always)]
    pub fn alloc(&mut self, name: &str, alloc: AllocNo) -> Result<(), AllocError>
        requires { is_plain name.now ≡ true }
        ensures { OnOk result (self.new ≡ added self.old (key name.now ∷ number (decimal alloc) ∷ [])) }
    {
        self.whole(name, u64::from(alloc.0))
    }

    /// A member that is a host's number.
    #[inline(always)]
    pub fn host(&mut self, name: &str, host: HostNo) -> Result<(), AllocError>
        requires { is_plain name.now ≡ true }
        ensures { OnOk result (self.new ≡ added self.old (key name.now ∷ number (decimal host) ∷ [])) }
    {
        self.whole(name, u64::from(host.0))
    }

    /// A member that is a whole number of 32 bits.
    #[inline(always)]
    pub fn number(&mut self, name: &str, value: u32) -> Result<(), AllocError>
        requires { is_plain name.now ≡ true }
        ensures { OnOk result (self.new ≡ added self.old (key name.now ∷ number (decimal value) ∷ [])) }
    {
        self.whole(name, u64::from(value))
    }

    /// A member that is a whole number with a sign.
    #[inline(always)]
    pub fn signed(&mut self, name: &str, value: i32) -> Result<(), AllocError>
        requires { is_plain name.now ≡ true }
        ensures { OnOk result (self.new ≡ added self.old (key name.now ∷ number (signed_decimal value) ∷ [])) }
    {
        self.len = write_signed(&mut self.room, self.len, self.after_value, name, value)?;
        self.after_value = true;
        Ok(())
    }

    /// A member that is a text.
    #[inline(always)]
    pub fn text(&mut self, name: &str, value: &str) -> Result<(), AllocError>
        requires { is_plain name.now ≡ true }
        ensures { OnOk result (self.new ≡ added self.old (key name.now ∷ string value.now ∷ [])) }
    {
        self.len = write_text(&mut self.room, self.len, self.after_value, name, value)?;
        self.after_value = true;
        Ok(())
    }

    /// A member that is a text whose bytes stand for themselves. They aren't looked through.
    #[inline(always)]
    pub fn word(&mut self, name: &str, value: &str) -> Result<(), AllocError>
        requires name { is_plain name.now ≡ true }
        requires value { is_plain value.now ≡ true }
        ensures { OnOk result (self.new ≡ added self.old (key name.now ∷ string value.now ∷ [])) }
    {
        self.len = write_word(&mut self.room, self.len, self.after_value, name, value)?;
        self.after_value = true;
        Ok(())
    }

    /// A member that is true or false.
    #[inline(always)]
    pub fn truth(&mut self, name: &str, value: bool) -> Result<(), AllocError>
        requires { is_plain name.now ≡ true }
        ensures { OnOk result (self.new ≡ added self.old (key name.now ∷ boolean value ∷ [])) }
    {
        self.len = write_member(
            &mut self.room,
            self.len,
            self.after_value,
            name,
            truth_word(value).as_bytes(),
        )?;
        self.after_value = true;
        Ok(())
    }

    /// An item of a list that is a text.
    #[inline(always)]
    pub fn text_item(&mut self, value: &str) -> Result<(), AllocError>
        ensures { OnOk result (self.new ≡ added self.old (string value.now ∷ [])) }
    {
        self.len = write_quoted(&mut self.room, self.len, self.after_value, value)?;
        self.after_value = true;
        Ok(())
    }
}
