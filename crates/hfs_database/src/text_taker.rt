//! The taker that writes text.
ghost use Rattle.std.specs.Prelude.{◌≡◌, [], List, Option, OnErr, OnOk, ℕ};
ghost use Rattle.std.specs.Io.KnownBytes.{Appends};
ghost use Rattle.hfs_database.specs.declared.form.Form.{Form};
ghost use Rattle.hfs_database.specs.RowTexts.{image_text};
ghost use Rattle.hfs_database.specs.Taken.{MayEndWith, with_row};
ghost use Rattle.hfs_database.specs.UnderWay.{IsUnderWay, WritesFront};

use crate::form::Form;
use crate::keys::Keys;
use crate::text_putting::{put_row, write_end};
use crate::{Given, GivenRow, RowTaker, RowValue, Table, TakerFault};
use std::alloc::Global;
use std::io::Write;
use std::snapshot::Snapshot;

/// A taker that writes the rows of an image as text, in pieces of 65,536 bytes and a line. After a fault it takes no more. What
/// was written since the image began is a beginning of the text of the rows that it was given.
#[derive(Drop)]
pub struct TextTaker<W: Write> {
    alloc: Global,
    writer: W,
    form: Form,
    /// What is still to be written.
    text: Vec<u8>,
    keys: Keys,
    has_failed: bool,
    /// The writer when the image began.
    start: Snapshot<W>,
    given: Given,
    ghost underway: { ∥ IsUnderWay (W.contents start.value) (W.contents writer) text.items form keys given.rows has_failed ∥₁ },
}

impl<W: Write + Drop> TextTaker<W> {
    /// A taker that was given nothing.
    pub fn new(alloc: Global, writer: W, form: Form) -> TextTaker<W>
        ensures form { result.form ≡ form }
        ensures nothing { result.given.rows ≡ [] }
        ensures start { W.contents result.start.value ≡ W.contents writer }
        ensures writer { W.contents result.writer ≡ W.contents writer }
    {
        TextTaker {
            alloc,
            start: Snapshot::of(&writer),
            writer,
            form,
            text: Vec::new(alloc),
            keys: Keys::none(),
            has_failed: false,
            given: Given::new(),
        }
    }

    /// Ends an image, whether or not all its rows came, and writes what is still to be written; after this the next image may
    /// come. At a fault, a beginning of all this was written. Faults: `CannotWrite`, also after a fault; `NoMemory`.
    pub fn end(&mut self, is_whole: bool) -> Result<(), TakerFault>
        ensures form { self.new.form ≡ self.old.form }
        ensures written { OnOk result (Appends (W.contents self.old.start.value)
            (W.contents self.new.writer) (image_text self.old.form self.old.given.rows is_whole)) }
        ensures part { OnErr result (WritesFront (W.contents self.old.start.value)
            (W.contents self.new.writer) (image_text self.old.form self.old.given.rows is_whole)) }
        ensures nothing { OnOk result (self.new.given.rows ≡ []) }
        ensures start { OnOk result (W.contents self.new.start.value ≡ W.contents self.new.writer) }
    {
        if self.has_failed {
            return Err(TakerFault::CannotWrite);
        }
        self.has_failed = true;
        let ended = write_end(
            self.alloc,
            &mut self.writer,
            &mut self.text,
            self.form,
            &self.keys,
            is_whole,
        );
        self.start = Snapshot::of(&self.writer);
        self.given = Given::new();
        ended?;
        self.text.clear();
        self.keys = Keys::none();
        self.has_failed = false;
        Ok(())
    }
}

impl<W: Write + Drop> RowTaker for TextTaker<W> {
    ghost given = { λ taker. taker.given.rows };

    ghost reference = { λ _. 0 };

    ghost Place = { Option (List ℕ) × Form };

    ghost place = { λ taker. (W.contents taker.start.value, taker.form) };

    fn take(&mut self, table: Table, values: &[RowValue]) -> Result<(), TakerFault>
        ensures whole { OnOk result (self.new.given.rows ≡ with_row self.old.given.rows table values.now) }
        ensures kept { OnErr result (self.new.given.rows ≡ self.old.given.rows) }
        ensures refused { OnErr result (MayEndWith self.old.given.rows table values.now self.new.given.rows) }
        ensures place { ◌≡◌ {A = Option (List ℕ) × Form} (W.contents self.new.start.value, self.new.form)
            (W.contents self.old.start.value, self.old.form) }
    {
        if self.has_failed {
            return Err(TakerFault::CannotWrite);
        }
        self.has_failed = true;
        let row = GivenRow { table, values };
        put_row(
            self.alloc,
            &mut self.writer,
            &mut self.text,
            &mut self.keys,
            self.form,
            &row,
        )?;
        self.given = self.given.then(&row);
        self.has_failed = false;
        Ok(())
    }
}
