//! The writer through which the standard error goes.

use crate::keys::key_in;
use crate::objects::Object;
use crate::places::Sentence;
use crate::words::Words;
use crate::writers::{split_line, text_in};
use std::alloc::Global;
use std::io::{self, IsTerminal, Write};
use std::mem::swap;

/// What a line with a code begins with.
const NAME: &str = "babel: ";

/// The form of what is written.
#[derive(Clone, Copy)]
pub enum FaultForm {
    /// The text as it is.
    AsWritten,
    /// An object for each fault, with its sentence. Sentences without a fault are left out.
    Faults,
    /// The same, and an object for each sentence without a fault.
    FaultsAndSentences,
}

/// A writer that takes codes with their sentences, and writes an object for each.
#[derive(Drop)]
pub struct FaultWriter<'a, 'b, E: Write + IsTerminal> {
    alloc: Global,
    inner: &'a mut E,
    form: FaultForm,
    /// The files that a sentence may begin with.
    files: &'b [&'b str],
    /// The part of a line that came.
    line: Vec<u8>,
    /// The code whose sentence has not come yet; empty if there is none.
    code: Vec<u8>,
    /// The object that is written.
    made: Vec<u8>,
}

impl<'a, 'b, E: Write + IsTerminal> FaultWriter<'a, 'b, E> {
    /// A writer in a form, with the files that a sentence may begin with.
    pub fn new(
        alloc: Global,
        inner: &'a mut E,
        form: FaultForm,
        files: &'b [&'b str],
    ) -> FaultWriter<'a, 'b, E> {
        FaultWriter {
            alloc,
            inner,
            form,
            files,
            line: Vec::new(alloc),
            code: Vec::new(alloc),
            made: Vec::new(alloc),
        }
    }

    /// Writes the object of a code that has no sentence.
    pub fn finish(&mut self) -> io::Result<()> {
        if self.code.is_empty() {
            return Ok(());
        }
        self.made.clear();
        let code = self.code.as_slice();
        let pushed = push_fault(self.alloc, code, &code[..0], self.files, &mut self.made);
        self.write_made(pushed)
    }

    fn take(&mut self, text: &[u8]) -> io::Result<()> {
        let mut rest = text;
        while let Some((part, after)) = split_line(rest) {
            self.line.extend_from_slice(part)?;
            self.end_line()?;
            self.line.clear();
            rest = after;
        }
        Ok(self.line.extend_from_slice(rest)?)
    }

    fn end_line(&mut self) -> io::Result<()> {
        if self.line.starts_with(NAME.as_bytes()) {
            self.finish()?;
            swap(&mut self.line, &mut self.code);
            return Ok(());
        }
        if self.code.is_empty() && matches!(self.form, FaultForm::Faults) {
            return Ok(());
        }
        self.made.clear();
        let code = self.code.as_slice();
        let pushed = push_fault(
            self.alloc,
            code,
            self.line.as_slice(),
            self.files,
            &mut self.made,
        );
        self.write_made(pushed)
    }

    fn write_made(&mut self, pushed: io::Result<()>) -> io::Result<()> {
        self.code.clear();
        pushed?;
        self.inner.write_all(self.made.as_slice())
    }
}

/// Appends the object of a code with its sentence, either of which may be empty. The sentence may
/// begin with the name of one of the files.
fn push_fault<'x>(
    alloc: Global,
    code: &'x [u8],
    sentence: &'x [u8],
    files: &[&str],
    out: &mut Vec<u8>,
) -> io::Result<()> {
    let code = text_in(code)?;
    let sentence = Sentence::read(text_in(sentence)?, files);
    let object = match code.strip_prefix(NAME) {
        Some(code) => fault_object(code, &sentence),
        None => sentence_object(&sentence),
    };
    object.push_to(alloc, out)
}

/// The object of a code, which may have a line before it, and a number and a further code after it.
fn fault_object<'a>(code: &'a str, sentence: &Sentence<'a>) -> Object<'a> {
    let mut words = Words::new(code);
    let line = if words.skip("line") {
        words.optional_number()
    } else {
        None
    };
    let mut object = Object::new("error");
    object.text("code", words.word());
    object.number_or_null("number", words.optional_number());
    object.text_or_null("cause", words.optional_word());
    put_sentence(&mut object, sentence, line);
    object
}

/// The object of a sentence without a code.
fn sentence_object<'a>(sentence: &Sentence<'a>) -> Object<'a> {
    let mut object = Object::new("detail");
    put_sentence(&mut object, sentence, None);
    object
}

fn put_sentence<'a>(object: &mut Object<'a>, sentence: &Sentence<'a>, line: Option<u64>) {
    object.text_or_null("file", sentence.file);
    object.number_or_null("line", sentence.line.or(line));
    object.number_or_null("column", sentence.column);
    object.text_or_null("key", key_in(sentence.message));
    if sentence.message.is_empty() {
        object.null("message");
    } else {
        object.text("message", sentence.message);
    }
}

impl<E: Write + IsTerminal> Write for FaultWriter<'_, '_, E> {
    fn write(&mut self, buf: &[u8]) -> io::Result<usize> {
        if matches!(self.form, FaultForm::AsWritten) {
            return self.inner.write(buf);
        }
        self.take(buf)?;
        Ok(buf.len())
    }

    fn flush(&mut self) -> io::Result<()> {
        self.inner.flush()
    }
}

/// Sentences are wanted for objects as at a terminal.
impl<E: Write + IsTerminal> IsTerminal for FaultWriter<'_, '_, E> {
    fn is_terminal(&self) -> bool {
        !matches!(self.form, FaultForm::AsWritten) || self.inner.is_terminal()
    }
}
