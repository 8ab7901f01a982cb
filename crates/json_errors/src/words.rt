//! The words that fields hold.

ghost use Rattle.std.specs.Prelude.{◌≡◌, map};
ghost use Rattle.json_errors.specs.Words.{lang_names, resolutions, words};

/// A set of words.
#[derive(Clone, Copy)]
pub enum Words {
    Literals,
    Segments,
    Bounds,
    Modifiers,
    UnaryOps,
    BinaryOps,
    RangeOps,
    Owners,
    Containers,
    /// What a path may stand for, except for aliases.
    Resolutions,
    /// The items that the language itself names, in the order of their numbers.
    LangItems,
}

impl Words {
    /// The words of the set.
    pub fn all(self) -> &'static [&'static str]
        ensures { map (λ w. w.now) result.now ≡ words self }
    {
        match self {
            Words::Literals => &["str", "bytestr", "cstr", "char", "bool", "int", "float"],
            Words::Segments => &["name", "self", "crate", "super", "Self", "type"],
            Words::Bounds => &["path", "use", "lifetime"],
            Words::Modifiers => &["unsafe", "try", "const", "async", "gen", "asyncgen"],
            Words::UnaryOps => &["*", "!", "-"],
            Words::BinaryOps => &[
                "||", "&&", "==", "!=", "<=", "<", ">=", ">", "+", "*", "-", "/", "%", "<<", ">>",
                "^", "|", "&", "=", "+=", "*=", "-=", "/=", "%=", "<<=", ">>=", "^=", "|=", "&=",
            ],
            Words::RangeOps => &["..", "..="],
            Words::Owners => &["fn", "static", "const", "variant"],
            Words::Containers => &["module", "extern", "impl", "trait"],
            Words::Resolutions => resolutions(),
            Words::LangItems => lang_items(),
        }
    }
}

fn resolutions() -> &'static [&'static str]
    ensures { map (λ w. w.now) result.now ≡ resolutions }
{
    &[
        "module", "function", "struct", "union", "enum", "variant", "const", "static", "trait",
        "builtin",
    ]
}

fn lang_items() -> &'static [&'static str]
    ensures { map (λ w. w.now) result.now ≡ lang_names }
{
    &[
        "RangeFull",
        "RangeFrom",
        "RangeFromCopy",
        "RangeTo",
        "RangeCopy",
        "Range",
        "RangeToInclusiveCopy",
        "RangeToInclusive",
        "RangeInclusiveCopy",
        "RangeInclusiveNew",
        "TryTraitFromOutput",
        "TryTraitBranch",
        "ControlFlowContinue",
        "ControlFlowBreak",
        "ResidualIntoTryType",
        "TryTraitFromResidual",
        "IntoIterIntoIter",
        "IteratorNext",
        "OptionSome",
        "OptionNone",
        "RangeMin",
        "RangeMax",
        "RangeSub",
    ]
}
