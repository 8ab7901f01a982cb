//! The text of what has no parts.

use super::numbering::Numbering;
use super::types::before_first_name;
use hir_base::node::{AstPtr, InFile, NodeId};
use hir_store::hir::Literal;
use hir_store::ids::HygieneId;
use hir_store::name::Name;
use hir_store::path::{ModPath, PathKind};
use hir_store::type_ref::LifetimeRef;
use hir_syntax::ast::LiteralKind;
use itoa::{Buffer, Integer};
use std::alloc::{AllocError, Global};

/// A listing as far as it is written. Once memory is refused nothing more is written, and in the end no text is answered.
pub struct Writer {
    out: String,
    is_refused: bool,
    sources: bool,
    generated: Numbering,
}

impl Drop for Writer {
    fn drop(self) {
        let Writer {
            out: _,
            is_refused: _,
            sources: _,
            generated: _,
        } = self;
    }
}

impl Writer {
    /// An empty listing, which shows sources or doesn't. It takes no memory.
    pub fn new(alloc: Global, sources: bool) -> Writer {
        Writer {
            out: String::new(alloc),
            is_refused: false,
            sources,
            generated: Numbering::new(alloc),
        }
    }

    /// The text written so far.
    pub fn text(&self) -> &str {
        self.out.as_str()
    }

    /// Takes another text in place of the one so far.
    pub fn replace(&mut self, text: String) {
        self.out = text;
    }

    /// The whole text, or that memory was refused.
    pub fn finish(self) -> Result<String, AllocError> {
        let Writer {
            out,
            is_refused,
            sources: _,
            generated: _,
        } = self;
        if is_refused { Err(AllocError) } else { Ok(out) }
    }

    /// Whether memory was refused.
    pub fn is_refused(&self) -> bool {
        self.is_refused
    }

    /// Notes that memory was refused.
    pub fn refuse(&mut self) {
        self.is_refused = true;
    }

    /// Notes that memory was refused, where it was.
    pub fn track(&mut self, done: Result<(), AllocError>) {
        if done.is_err() {
            self.refuse();
        }
    }

    /// Adds one character.
    pub fn mark(&mut self, mark: char) {
        if !self.is_refused {
            let pushed = self.out.push(mark);
            self.track(pushed);
        }
    }

    /// Adds a text as it stands.
    pub fn word(&mut self, text: &str) {
        if !self.is_refused {
            let pushed = self.out.push_str(text);
            self.track(pushed);
        }
    }

    /// Adds a text and a number.
    pub fn numbered<N: Integer>(&mut self, text: &str, number: N) {
        self.word(text);
        let mut digits = Buffer::new();
        self.word(digits.format(number));
    }

    /// Adds a text and a number; where memory was refused when the number was looked for, notes that.
    pub fn found<N: Integer>(&mut self, text: &str, number: Result<N, AllocError>) {
        match number {
            Ok(number) => self.numbered(text, number),
            Err(AllocError) => self.refuse(),
        }
    }

    /// Adds a text and a name.
    pub fn named(&mut self, text: &str, name: &Name) {
        self.word(text);
        self.name(name)
    }

    /// Adds the bracket and the kind that a form begins with, and the node that it came from where sources are shown.
    pub fn open(&mut self, kind: &str, node: Option<InFile<AstPtr>>) {
        self.word(kind);
        if let Some(node) = node
            && self.sources
        {
            self.source(node);
        }
    }

    /// Ends a line by the node that it is about where sources are shown.
    pub fn end_line(&mut self, node: Option<InFile<AstPtr>>) {
        if let Some(node) = node
            && self.sources
        {
            self.mark(' ');
            self.source(node);
        }
        self.mark('\n')
    }

    /// Adds a name: its text, `?` for the missing one, `$k` for the k-th generated one by first printing.
    pub fn name(&mut self, name: &Name) {
        match name {
            Name::Text(text) => self.word(text.as_str()),
            Name::Missing => self.word("?"),
            Name::Generated(generated) => {
                let number = self.generated.number(*generated);
                self.found("$", number)
            }
        }
    }

    /// Adds `!h` for a hygiene h other than the root's.
    pub fn hygiene(&mut self, hygiene: HygieneId) {
        if hygiene == HygieneId::ROOT {
            return;
        }
        self.numbered("!", hygiene.0)
    }

    /// Adds a path without arguments: where it begins and its names, joined by `::`.
    pub fn mod_path(&mut self, path: &ModPath) {
        self.path_kind(path.kind);
        let mut before = before_first_name(path.kind);
        for name in path.segments.as_slice() {
            self.word(before);
            self.name(name);
            before = "::";
        }
    }

    /// Adds names as a list.
    pub fn names(&mut self, names: &[Name]) {
        let mut before = "[";
        for name in names {
            self.word(before);
            self.name(name);
            before = " ";
        }
        self.word(if names.is_empty() { "[]" } else { "]" })
    }

    /// Adds a lifetime.
    pub fn lifetime(&mut self, lifetime: &LifetimeRef) {
        match lifetime {
            LifetimeRef::Named(name) => self.name(name),
            LifetimeRef::Static => self.word("'static"),
            LifetimeRef::Placeholder => self.word("'_"),
            LifetimeRef::Error => self.word("'{error}"),
        }
    }

    /// Adds `for<..>` with these lifetimes, and a space.
    pub fn binder(&mut self, names: &[Name]) {
        let mut before = "for<";
        for name in names {
            self.word(before);
            self.name(name);
            before = ", ";
        }
        self.word(if names.is_empty() { "for<> " } else { "> " })
    }

    /// Adds where a path begins: nothing or `::`, a keyword, `super` n times, or a crate's root by its number.
    pub fn path_kind(&mut self, kind: PathKind) {
        match kind {
            PathKind::Plain => {}
            PathKind::Abs => self.word("::"),
            PathKind::Super(0) => self.word("self"),
            PathKind::Super(levels) => self.supers(levels),
            PathKind::Crate => self.word("crate"),
            PathKind::DollarCrate(root) => {
                self.numbered("$crate(", root.0);
                self.mark(')')
            }
        }
    }

    fn supers(&mut self, levels: u32) {
        let mut before = "";
        for _ in 0..levels {
            if self.is_refused {
                break;
            }
            self.word(before);
            self.word("super");
            before = "::";
        }
    }

    /// Adds a literal: a minus where it has one, the value, the suffix.
    ///
    /// Texts and characters stand between double quotes; an integer has no zeros in front; a truth value and a number
    /// with a fraction stand as they were written.
    pub fn literal(&mut self, literal: &Literal) {
        if literal.negative {
            self.mark('-');
        }
        let text = literal.text.as_str();
        match literal.kind {
            LiteralKind::Str | LiteralKind::ByteStr | LiteralKind::CStr | LiteralKind::Char => {
                self.quoted(text);
            }
            LiteralKind::Int => self.word(without_leading_zeros(text)),
            LiteralKind::Bool | LiteralKind::Float => self.word(text),
        }
        if let Some(suffix) = &literal.suffix {
            self.word(suffix.as_str());
        }
    }

    /// Adds a text between double quotes, with a backslash before each double quote and each backslash in it.
    fn quoted(&mut self, text: &str) {
        self.mark('"');
        for c in text.chars() {
            if c == '"' || c == '\\' {
                self.mark('\\');
            }
            self.mark(c);
        }
        self.mark('"')
    }

    /// Adds a node, `@n`, or `@f.n` where its file f isn't 0.
    pub fn node(&mut self, node: InFile<NodeId>) {
        match node.file_id.0 {
            0 => self.numbered("@", node.value.0),
            file => {
                self.numbered("@", file);
                self.numbered(".", node.value.0)
            }
        }
    }

    fn source(&mut self, node: InFile<AstPtr>) {
        let InFile { file_id, value } = node;
        self.node(InFile {
            file_id,
            value: value.node,
        })
    }
}

/// The digits without zeros in front; one zero where there is nothing else.
fn without_leading_zeros(digits: &str) -> &str {
    let rest = digits.trim_start_matches('0');
    if rest.is_empty() { "0" } else { rest }
}
