//! The members of a request while its words are read.

ghost use Rattle.std.specs.Prelude.{◌≡◌, false};
ghost use Rattle.serde_json.specs.Data.{object};
ghost use Rattle.serde_json.specs.View.{members_view};
ghost use Rattle.serde_json.specs.Written.{has_float};

use crate::asked::{ToolWords, WordsFault};
use crate::spec_object::Map;
use farm_types::Text;
use serde_json::Value;
use std::alloc::{AllocError, Global};

/// The members so far, in byte order of their keys. No number among them is a float.
#[derive(Drop)]
pub struct Fields {
    map: Map,
    ghost whole: { has_float (object (members_view map.entries)) ≡ false },
}

impl Fields {
    ghost use Rattle.std.specs.Prelude.{IfOk, OnOk};
    ghost use Rattle.serde_json.specs.Data.{put, string};
    ghost use Rattle.serde_json.specs.View.{view};
    ghost use Rattle.cue_words.specs.Commands.{asking, line_of};
    ghost use Rattle.cue_words.specs.Members.{members};
    ghost use Rattle.cue_words.specs.Results.{IsWords};

    /// The request of that name.
    pub fn asking(alloc: Global, op: &str) -> Result<Fields, AllocError>
        ensures { IfOk result (λ fields. members fields ≡ asking op.now) }
    {
        let mut fields = Fields {
            map: Map::new(alloc),
        };
        fields.put_text(alloc, "op", op)?;
        Ok(fields)
    }

    /// Puts a value in at a key.
    #[tactic(auto, using(crate::proofs::Whole::whole_put))]
    pub fn put(&mut self, alloc: Global, key: &str, value: Value) -> Result<(), AllocError>
        requires { has_float (view value) ≡ false }
        ensures { OnOk result (members self.new ≡ put key.now (view value) (members self.old)) }
    {
        serde_json::put(&mut self.map, alloc, key, value)
    }

    /// Puts a text in at a key.
    pub fn put_text(&mut self, alloc: Global, key: &str, text: &str) -> Result<(), AllocError>
        ensures { OnOk result (members self.new ≡ put key.now (string text.now) (members self.old)) }
    {
        self.put(alloc, key, Value::try_from_str(alloc, text)?)
    }

    /// The line of the members.
    pub fn into_asked(self, alloc: Global) -> Result<ToolWords, WordsFault>
        ensures { IsWords result (line_of (members self)) }
    {
        let Fields { map } = self;
        let line = Value::Object(map).to_string(alloc)?;
        Ok(ToolWords::Ask {
            line: Text::from_string(line),
        })
    }
}
