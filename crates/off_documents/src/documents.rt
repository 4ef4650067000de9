ghost use Rattle.std.specs.Prelude.{◌≡◌, Some, None, Err, IfOk, IsUtf8};
ghost use Rattle.serde_json.specs.Read.{read};
ghost use Rattle.off_documents.specs.Documents.{data_of};

use crate::levels::is_convertible;
use crate::parts::Part;
use json::{Error, Scratch, Tape};
use std::alloc::Global;
use std::marker::Model;

/// Why bytes weren't read: they are no JSON text in UTF-8, or memory was wanted. A text of nearly
/// 4 GiB or more counts as want of memory.
#[derive(Clone, Copy, Drop, PartialEq, Eq)]
pub enum DocumentErr {
    NotJson,
    Memory,
}

/// A JSON text that was read whole. Clauses see its tokens.
#[derive(Drop)]
pub struct Document<'a> {
    tape: Tape<'a>,
}

impl<'a> Model for Document<'a> {
    ghost use Rattle.std.specs.Prelude.{List, IsTrue, is_some};
    ghost use Rattle.json.specs.Token.{Token, tokens_code};
    ghost use Rattle.off_documents.specs.Documents.{value_at};

    ghost Value = { List Token };

    ghost coded = { tokens_code };

    ghost view = { λ a. a.tape };

    ghost invariant = { λ a. IsTrue (is_some (value_at a.tape)) };
}

impl<'a> Document<'a> {
    pub fn read(
        alloc: Global,
        bytes: &'a [u8],
        scratch: &'a mut Scratch,
    ) -> Result<Document<'a>, DocumentErr>
        ensures ok { IfOk result
            (λ document. IsUtf8 bytes.now × (read bytes.now ≡ Some (data_of document))) }
        ensures not_json { result ≡ Err DocumentErr.NotJson → IsUtf8 bytes.now
            → read bytes.now ≡ None }
    {
        match std::str::from_utf8(bytes) {
            Ok(text) => Document::of_text(alloc, text, scratch),
            Err(_) => Err(DocumentErr::NotJson),
        }
    }

    fn of_text(
        alloc: Global,
        text: &'a str,
        scratch: &'a mut Scratch,
    ) -> Result<Document<'a>, DocumentErr>
        ensures ok { IfOk result (λ document. read text.now ≡ Some (data_of document)) }
        ensures not_json { result ≡ Err DocumentErr.NotJson → read text.now ≡ None }
    {
        match Tape::parse(text, scratch, Vec::new(alloc)) {
            Ok(tape) => {
                if is_convertible(tape.nodes()) {
                    Ok(Document { tape })
                } else {
                    Err(DocumentErr::NotJson)
                }
            }
            Err(Error::Invalid) => Err(DocumentErr::NotJson),
            Err(_) => Err(DocumentErr::Memory),
        }
    }

    /// The text's one value.
    pub fn root(&self) -> Part<'_, 'a>
        ensures { result ≡ self.now }
    {
        Part::begin(self.tape.root())
    }
}
