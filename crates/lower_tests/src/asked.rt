//! What lowering a body asks: all that the lists of `thm_enabled` have of it, and nothing else. A list leaves out what is asked inside of a
//! disabled part.

use crate::documents::{AskOfDocument, Said, own_if, said_by_error, said_of};
use crate::lowered::lowered_by_object;
use hir_base::node::{HirFileId, InFile, NodeId};
use hir_env::expand::FragmentKind;
use hir_env::resolved::BuiltinShadowMode;
use hir_lower::LowerError;
use hir_recorder::{Asked, Recorder};
use hir_store::ids::{DefWithBodyId, ModuleId};
use hir_store::name::Name;
use hir_store::path::{ModPath, PathKind};
use lower_json::document::{Document, Root};
use std::alloc::Global;

/// What is asked. A node is known by its file and its number.
#[derive(Clone, Copy)]
pub enum Question {
    Skip,
    Container,
    ExpansionLimit,
    Cfg(u32, u32),
    Hygiene(u32, u32),
    /// The number of a block, in a module.
    Block(u32, u32, u32),
    /// What a name alone stands for in a module.
    Resolve(u32, &'static str, BuiltinShadowMode),
    /// The lang items, which a recorder keeps as one answer.
    LangItems,
    /// What a call stands for, in a module.
    Expand(u32, u32, u32, FragmentKind),
}

/// What each body asks beside what stands in it.
const OF_EACH: [Question; 3] = [
    Question::Skip,
    Question::Container,
    Question::ExpansionLimit,
];

/// A body, and what the list of it has beside that.
#[derive(Clone, Copy)]
pub struct Row {
    pub text: &'static str,
    pub list: &'static [Question],
}

fn node(file: u32, number: u32) -> InFile<NodeId> {
    InFile {
        file_id: HirFileId(file),
        value: NodeId(number),
    }
}

/// Whether it is this name.
fn is_name(name: &Name, text: &str) -> bool {
    match name {
        Name::Text(own) => own.as_str() == text,
        Name::Missing | Name::Generated(_) => false,
    }
}

/// Whether it is this name alone.
fn is_plain(path: &ModPath, text: &str) -> bool {
    match path.segments.as_slice() {
        [name] => path.kind == PathKind::Plain && is_name(name, text),
        _ => false,
    }
}

/// Whether it is asked about a node.
fn is_at_node(question: Question, asked: &Asked) -> bool {
    match (question, asked) {
        (Question::Cfg(file, number), Asked::Cfg(of, _)) => node(file, number) == *of,
        (Question::Hygiene(file, number), Asked::Hygiene(of, _)) => node(file, number) == *of,
        (Question::Block(file, number, inside), Asked::Block(of, within, _)) => {
            node(file, number) == *of && ModuleId(inside) == *within
        }
        (Question::Expand(file, number, inside, kind), Asked::Expand(of, within, like, _)) => {
            node(file, number) == *of && ModuleId(inside) == *within && kind == *like
        }
        _ => false,
    }
}

/// Whether this is what is asked of the body of an owner.
fn is_asked(question: Question, asked: &Asked, owner: DefWithBodyId) -> bool {
    match (question, asked) {
        (Question::Skip, Asked::Skip(of, _)) => owner == *of,
        (Question::Container, Asked::Container(of, _)) => owner == *of,
        (Question::ExpansionLimit, Asked::ExpansionLimit(_)) => true,
        (Question::LangItems, Asked::LangItems(_)) => true,
        (Question::Resolve(inside, text, shadow), Asked::Resolve(within, path, by, _)) => {
            ModuleId(inside) == *within && is_plain(path, text) && shadow == *by
        }
        _ => is_at_node(question, asked),
    }
}

/// Whether it stands among what was asked.
fn holds(log: &[Asked], question: Question, owner: DefWithBodyId) -> bool {
    for asked in log {
        if is_asked(question, asked, owner) {
            return true;
        }
    }
    false
}

/// Whether all of these stand there.
fn holds_all(log: &[Asked], list: &[Question], owner: DefWithBodyId) -> bool {
    for question in list {
        if !holds(log, *question, owner) {
            return false;
        }
    }
    true
}

/// Whether the list has it.
fn lists(list: &[Question], asked: &Asked, owner: DefWithBodyId) -> bool {
    for question in list {
        if is_asked(*question, asked, owner) {
            return true;
        }
    }
    false
}

/// Whether nothing else was asked.
fn lists_all(list: &[Question], log: &[Asked], owner: DefWithBodyId) -> bool {
    for asked in log {
        if !lists(&OF_EACH, asked, owner) && !lists(list, asked, owner) {
            return false;
        }
    }
    true
}

/// Whether the log is the list, apart from the order.
fn is_list(log: &[Asked], list: &[Question], owner: DefWithBodyId) -> bool {
    holds_all(log, &OF_EACH, owner) && holds_all(log, list, owner) && lists_all(list, log, owner)
}

/// All that lowering the body in a document asks.
fn log_of(alloc: Global, document: &Document) -> Result<Option<Vec<Asked>>, LowerError> {
    let recorder = Recorder::new(alloc, &document.env);
    let lowered = lowered_by_object(alloc, &recorder, document);
    let log = recorder.into_asked();
    match lowered {
        Ok((body, source_map)) => {
            drop(body);
            drop(source_map);
            Ok(log)
        }
        Err(error) => Err(error),
    }
}

/// That this is what the body asks.
#[derive(Clone, Copy)]
struct Asks(&'static [Question]);

impl AskOfDocument for Asks {
    fn said(&self, alloc: Global, document: &mut Document) -> Said {
        let owner = document.owner;
        match log_of(alloc, document) {
            Ok(Some(log)) => own_if(is_list(log.as_slice(), self.0, owner)),
            Ok(None) => Said::Beside,
            Err(error) => said_by_error(error),
        }
    }
}

/// How a row answers.
pub fn said_of_row(alloc: Global, row: Row) -> Said {
    said_of(alloc, Root::Fn, row.text, &Asks(row.list))
}
