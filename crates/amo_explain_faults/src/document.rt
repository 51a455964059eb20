//! A text that TOML reads, with the tree in which the place of a fault is searched.
use crate::walk::{Form, Named, names_in};
use crate::wording::push_quoted;
use std::alloc::{AllocError, Global};
use toml::{Table, Value};

/// A text that TOML reads.
#[derive(Drop)]
pub(crate) struct Document<'a> {
    /// The text.
    pub(crate) text: &'a str,
    /// Its tree.
    pub(crate) tree: Table,
    /// The keys that it names, in its order.
    pub(crate) names: Vec<Named>,
}

impl<'a> Document<'a> {
    /// Returns the document of these bytes, if TOML reads them.
    pub(crate) fn read(alloc: Global, bytes: &'a [u8]) -> Result<Option<Document<'a>>, AllocError> {
        let Ok(text) = std::str::from_utf8(bytes) else {
            return Ok(None);
        };
        match toml::table_from_str(alloc, text) {
            Ok(tree) => {
                let names = names_in(alloc, text)?;
                Ok(Some(Document { text, tree, names }))
            }
            Err(error) if error.is_memory() => Err(AllocError),
            Err(_) => Ok(None),
        }
    }

    /// Returns the value at a key of the top level.
    pub(crate) fn value(&self, key: &str) -> Option<&Value> {
        self.tree.get(key)
    }

    /// Returns the integer at a key of the top level, if it isn't negative.
    pub(crate) fn natural(&self, key: &str) -> Option<u64> {
        natural(self.value(key)?)
    }

    /// Returns the text at a key of the top level. It is empty if the key is missing.
    pub(crate) fn text_at(&self, key: &str) -> &str {
        match self.value(key) {
            Some(Value::String(text)) => text.as_str(),
            _ => "",
        }
    }

    /// Returns the jobs.
    pub(crate) fn jobs(&self) -> &[Value] {
        match self.value("job") {
            Some(Value::Array(jobs)) => jobs.as_slice(),
            _ => &[],
        }
    }

    /// Returns the table of a job, or of the top level for 0.
    pub(crate) fn table(&self, job: u32) -> Option<&Table> {
        if job == 0 {
            return Some(&self.tree);
        }
        self.jobs().get(job as usize - 1)?.as_table()
    }

    /// Returns the value at a key of a job.
    pub(crate) fn value_of_job(&self, job: u32, key: &str) -> Option<&Value> {
        self.table(job)?.get(key)
    }

    /// Returns the name of a job.
    pub(crate) fn name_of_job(&self, job: u32) -> Option<&str> {
        self.value_of_job(job, "name")?.as_str()
    }

    /// Returns the line, from 1, of the place with so many bytes of the text left.
    pub(crate) fn line_at(&self, left: usize) -> usize {
        let before = self.text.len().saturating_sub(left);
        let mut line = 1usize;
        for (i, byte) in self.text.as_bytes().iter().enumerate() {
            if i >= before {
                break;
            }
            if *byte == b'\n' {
                line = line.saturating_add(1);
            }
        }
        line
    }

    /// Returns the line of a key of a job, or of the top level for job 0, if it was found.
    pub(crate) fn line_of(&self, job: u32, key: &str) -> Option<usize> {
        for name in self.names.iter() {
            if name.job == job && name.key.as_str() == key {
                return Some(self.line_at(name.left));
            }
        }
        None
    }

    /// Returns the line in which a job begins, if it was found.
    pub(crate) fn line_of_job(&self, job: u32) -> Option<usize> {
        let mut begun = 0u32;
        for name in self.names.iter() {
            if matches!(name.form, Form::List | Form::Member)
                && name.job == 0
                && name.key.as_str() == "job"
            {
                begun = begun.saturating_add(1);
                if begun == job {
                    return Some(self.line_at(name.left));
                }
            }
        }
        None
    }

    /// Appends a job by its number, and by its name if it has one.
    pub(crate) fn push_job(&self, out: &mut String, job: u32) -> Result<(), AllocError> {
        write!(out, "job {job}")?;
        match self.name_of_job(job) {
            Some(name) => {
                out.push_str(" (")?;
                push_quoted(out, name)?;
                out.push_str(")")
            }
            None => Ok(()),
        }
    }
}

/// Returns an integer that isn't negative.
pub(crate) fn natural(value: &Value) -> Option<u64> {
    u64::try_from(value.as_integer()?).ok()
}
