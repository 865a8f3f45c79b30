//! The options of the command line.
ghost use Rattle.std.specs.Prelude.{◌≡◌, Some, true};
ghost use Rattle.report_answers.specs.Options.{bounds_of, capabilities_of, checks_uniformity, declares_structs, draws_structs};
ghost use Rattle.report_answers.specs.Options.{flag_of, flag_text, flags_of, flow_check, indexing_both, is_set, named_flag};
ghost use Rattle.report_answers.specs.Options.{options_from, start, with, with_word};
ghost use Rattle.report_answers.specs.WordLaws.{sets_same};

use crate::policies::policies_of;
use bitflags::Flags;
use shader_bounds::{BoundsCheckPolicies, BoundsCheckPolicy};
use shader_info::{Capabilities, ValidationFlags};

/// The policies of a report on bounds checks if no argument sets any.
const UNCHECKED: BoundsCheckPolicies = BoundsCheckPolicies {
    index: BoundsCheckPolicy::Unchecked,
    buffer: BoundsCheckPolicy::Unchecked,
    image_load: BoundsCheckPolicy::Unchecked,
    binding_array: BoundsCheckPolicy::Unchecked,
};

/// A flag of the command line.
#[derive(Clone, Copy, Debug, PartialEq, Eq)]
pub enum Flag {
    /// Reports as JSON.
    Json,
    /// Reports as text, as without a flag.
    FormatText,
    /// Reports as JSON: the longer name of this flag.
    FormatJson,
    /// Checks uniform flow by WGSL's rules, as without a flag.
    WgslFlow,
    /// Checks uniform flow as naga specifies it.
    NagaFlow,
    /// Doesn't check uniform flow.
    AnyFlow,
    /// Doesn't check uniform flow: the older name of this flag.
    NoFlow,
    /// Allows non-uniform indexes of arrays of sampled images and of samplers.
    IndexTextures,
    /// Allows non-uniform indexes of arrays of storage images.
    IndexStorageTextures,
    /// Allows non-uniform indexes of both kinds of arrays.
    IndexBoth,
    /// The same, with the kinds in the other order.
    IndexBothTurned,
    /// Reports bounds checks.
    Bounds,
    /// Reports bounds checks under these policies.
    Policies(BoundsCheckPolicies),
    /// Reports resources.
    Resources,
    /// Declares all structs.
    AllStructs,
    /// Draws structs.
    Drawing,
    /// Doesn't draw structs.
    NoDrawing,
    /// Explains codes, and why results may differ.
    Explain,
    /// Shows all blocks, causes, entry points and globals.
    ShowAll,
}

/// The reason why arguments are refused, with the index of the first wrong one.
#[derive(Clone, Copy, Debug, PartialEq, Eq)]
pub enum BadWord {
    /// The argument is no flag.
    Unknown(usize),
    /// The argument sets what an earlier one has set.
    Twice(usize),
}

impl Flag {
    /// The flags with a fixed argument each: all except policies.
    pub const ALL: [Flag; 18] = [
        Flag::Json,
        Flag::FormatText,
        Flag::FormatJson,
        Flag::WgslFlow,
        Flag::NagaFlow,
        Flag::AnyFlow,
        Flag::NoFlow,
        Flag::IndexTextures,
        Flag::IndexStorageTextures,
        Flag::IndexBoth,
        Flag::IndexBothTurned,
        Flag::Bounds,
        Flag::Resources,
        Flag::AllStructs,
        Flag::Drawing,
        Flag::NoDrawing,
        Flag::Explain,
        Flag::ShowAll,
    ];

    /// Returns the command line argument that sets the flag. It is empty for policies, which many arguments set.
    pub fn word(self) -> &'static str
        ensures { result.now ≡ flag_text self }
    {
        match self {
            Flag::Json => "--json",
            Flag::FormatText => "--format=text",
            Flag::FormatJson => "--format=json",
            Flag::WgslFlow => "--uniformity=wgsl",
            Flag::NagaFlow => "--uniformity=naga",
            Flag::AnyFlow => "--uniformity=off",
            Flag::NoFlow => "--no-control-flow-uniformity",
            Flag::IndexTextures => "--non-uniform-indexing=textures",
            Flag::IndexStorageTextures => "--non-uniform-indexing=storage-textures",
            Flag::IndexBoth => "--non-uniform-indexing=textures,storage-textures",
            Flag::IndexBothTurned => "--non-uniform-indexing=storage-textures,textures",
            Flag::Bounds => "--bounds-checks",
            Flag::Policies(_) => "",
            Flag::Resources => "--resources",
            Flag::AllStructs => "--all-structs",
            Flag::Drawing => "--drawing",
            Flag::NoDrawing => "--no-drawing",
            Flag::Explain => "--explain",
            Flag::ShowAll => "--all",
        }
    }

    /// Returns the flag whose argument is `word`.
    fn named(word: &[u8]) -> Option<Flag>
        ensures { result ≡ named_flag word.now }
    {
        Flag::ALL
            .iter()
            .copied()
            .find(|flag| flag.word().as_bytes() == word)
    }

    /// Returns the flag that an argument sets, which may be policies of bounds checks.
    pub fn from_word(word: &[u8]) -> Option<Flag>
        ensures { result ≡ flag_of word.now }
    {
        match Flag::named(word) {
            Some(flag) => Some(flag),
            None => policies_of(word).map(Flag::Policies),
        }
    }

    /// Returns whether another flag sets the option that this flag sets.
    pub fn sets_same(self, other: Flag) -> bool
        ensures { result ≡ sets_same self other }
    {
        Options::START.with(self).is_set(other)
    }
}

/// The check of uniform flow in a report.
#[derive(Clone, Copy, Debug, PartialEq, Eq)]
pub enum FlowCheck {
    /// That of `shader_uniformity`, which follows WGSL, if the module has no other fault.
    Wgsl,
    /// That of the analysis, as naga specifies it.
    Naga,
    /// None.
    Off,
}

/// The options of a report.
#[derive(Clone, Copy, Debug, PartialEq, Eq)]
pub struct Options {
    /// True for JSON, false for text output.
    pub is_json: bool,
    /// True if an argument asks for text output, which is the default.
    pub is_text: bool,
    /// The check of uniform flow, if an argument says it. Otherwise it is that of WGSL.
    pub flow: Option<FlowCheck>,
    /// True if arrays of sampled images and of samplers may be indexed by values that differ among invocations.
    pub indexes_textures: bool,
    /// True if arrays of storage images may be indexed by values that differ among invocations.
    pub indexes_storage_textures: bool,
    /// True if bounds checks are reported even if no argument sets policies.
    pub has_bounds: bool,
    /// The policies under which bounds checks are reported, if an argument sets any: that asks for the report too.
    pub policies: Option<BoundsCheckPolicies>,
    /// True if resources are reported.
    pub has_resources: bool,
    /// True if the text output declares all structs. Drawings are below declarations, so they ask for these too.
    pub has_structs: bool,
    /// Whether the text output has drawings of structs, if an argument says so.
    pub drawing: Option<bool>,
    /// True if the text output explains codes, and why results of entry points may differ between invocations.
    pub explains: bool,
    /// True if the text output has all blocks, causes, entry points and globals, and not the first ones alone.
    pub shows_all: bool,
}

impl Options {
    /// The options without any argument.
    pub const START: Options = Options {
        is_json: false,
        is_text: false,
        flow: None,
        indexes_textures: false,
        indexes_storage_textures: false,
        has_bounds: false,
        policies: None,
        has_resources: false,
        has_structs: false,
        drawing: None,
        explains: false,
        shows_all: false,
    };

    /// Returns the options with JSON as output.
    fn as_json(self) -> Options
        ensures { result ≡ record self { is_json = true } }
    {
        Options {
            is_json: true,
            ..self
        }
    }

    /// Returns the options with text as output because an argument says so.
    fn as_text(self) -> Options
        ensures { result ≡ record self { is_text = true } }
    {
        Options {
            is_text: true,
            ..self
        }
    }

    /// Returns the options with non-uniform indexes of both kinds of arrays allowed.
    fn indexing_both(self) -> Options
        ensures { result ≡ indexing_both self }
    {
        Options {
            indexes_textures: true,
            indexes_storage_textures: true,
            ..self
        }
    }

    /// Returns the options with this check of uniform flow.
    fn with_flow(self, flow: FlowCheck) -> Options
        ensures { result ≡ record self { flow = Some flow } }
    {
        Options {
            flow: Some(flow),
            ..self
        }
    }

    /// Returns the check of uniform flow.
    fn flow_check(self) -> FlowCheck
        ensures { result ≡ flow_check self }
    {
        self.flow.unwrap_or(FlowCheck::Wgsl)
    }

    /// Returns the options with or without drawings of structs.
    fn with_drawing(self, is_drawn: bool) -> Options
        ensures { result ≡ record self { drawing = Some is_drawn } }
    {
        Options {
            drawing: Some(is_drawn),
            ..self
        }
    }

    /// Returns the options with declarations of structs.
    fn declaring_structs(self) -> Options
        ensures { result ≡ record self { has_structs = true } }
    {
        Options {
            has_structs: true,
            ..self
        }
    }

    /// Returns the options with explanations.
    fn explaining(self) -> Options
        ensures { result ≡ record self { explains = true } }
    {
        Options {
            explains: true,
            ..self
        }
    }

    /// Returns the options without limits of the text output.
    fn showing_all(self) -> Options
        ensures { result ≡ record self { shows_all = true } }
    {
        Options {
            shows_all: true,
            ..self
        }
    }

    /// Returns the options with one more flag.
    pub fn with(self, flag: Flag) -> Options
        ensures { result ≡ with self flag }
    {
        match flag {
            Flag::Json => self.as_json(),
            Flag::FormatText => self.as_text(),
            Flag::FormatJson => self.as_json(),
            Flag::WgslFlow => self.with_flow(FlowCheck::Wgsl),
            Flag::NagaFlow => self.with_flow(FlowCheck::Naga),
            Flag::AnyFlow => self.with_flow(FlowCheck::Off),
            Flag::NoFlow => self.with_flow(FlowCheck::Off),
            Flag::IndexTextures => Options {
                indexes_textures: true,
                ..self
            },
            Flag::IndexStorageTextures => Options {
                indexes_storage_textures: true,
                ..self
            },
            Flag::IndexBoth => self.indexing_both(),
            Flag::IndexBothTurned => self.indexing_both(),
            Flag::Bounds => Options {
                has_bounds: true,
                ..self
            },
            Flag::Policies(policies) => Options {
                policies: Some(policies),
                ..self
            },
            Flag::Resources => Options {
                has_resources: true,
                ..self
            },
            Flag::AllStructs => self.declaring_structs(),
            Flag::Drawing => self.with_drawing(true),
            Flag::NoDrawing => self.with_drawing(false),
            Flag::Explain => self.explaining(),
            Flag::ShowAll => self.showing_all(),
        }
    }

    /// Returns whether an earlier flag has set the option that this flag sets.
    fn is_set(self, flag: Flag) -> bool
        ensures { result ≡ is_set self flag }
    {
        let indexes = self.indexes_textures || self.indexes_storage_textures;
        let decides = self.flow.is_some();
        let is_formed = self.is_json || self.is_text;
        match flag {
            Flag::Json => is_formed,
            Flag::FormatText => is_formed,
            Flag::FormatJson => is_formed,
            Flag::WgslFlow => decides,
            Flag::NagaFlow => decides,
            Flag::AnyFlow => decides,
            Flag::NoFlow => decides,
            Flag::IndexTextures => indexes,
            Flag::IndexStorageTextures => indexes,
            Flag::IndexBoth => indexes,
            Flag::IndexBothTurned => indexes,
            Flag::Bounds => self.has_bounds,
            Flag::Policies(_) => self.policies.is_some(),
            Flag::Resources => self.has_resources,
            Flag::AllStructs => self.has_structs,
            Flag::Drawing => self.drawing.is_some(),
            Flag::NoDrawing => self.drawing.is_some(),
            Flag::Explain => self.explains,
            Flag::ShowAll => self.shows_all,
        }
    }

    /// Returns the policies under which bounds checks are reported, if they are. Without an argument with policies, all are `Unchecked`.
    pub fn bounds(self) -> Option<BoundsCheckPolicies>
        ensures { result ≡ bounds_of self }
    {
        match (self.policies, self.has_bounds) {
            (Some(policies), _) => Some(policies),
            (None, true) => Some(UNCHECKED),
            (None, false) => None,
        }
    }

    /// Returns whether structs are drawn.
    pub fn draws_structs(self) -> bool
        ensures { result ≡ draws_structs self }
    {
        self.drawing.unwrap_or(false)
    }

    /// Returns whether the text output declares structs, which drawings are below.
    pub fn declares_structs(self) -> bool
        ensures { result ≡ declares_structs self }
    {
        self.has_structs || self.draws_structs()
    }

    /// Applies one command line argument to the options. `index` is its position, for errors.
    fn with_word(self, index: usize, word: &[u8]) -> Result<Options, BadWord>
        ensures { result ≡ with_word self index word.now }
    {
        let Some(flag) = Flag::from_word(word) else {
            return Err(BadWord::Unknown(index));
        };
        if self.is_set(flag) {
            Err(BadWord::Twice(index))
        } else {
            Ok(self.with(flag))
        }
    }

    /// Returns the options that these arguments set, in any order.
    ///
    /// # Errors
    ///
    /// The first argument that is no flag, or that sets what an earlier one has set.
    pub fn from_words(words: &[String]) -> Result<Options, BadWord>
        ensures { result ≡ options_from start 0 words.now }
    {
        let mut options = Options::START;
        let mut index = 0;
        for word in words {
            options = options.with_word(index, word.as_bytes())?;
            index += 1;
        }
        Ok(options)
    }

    /// Returns whether uniform control flow is decided by WGSL's rules.
    pub fn checks_uniformity(self) -> bool
        ensures { result ≡ checks_uniformity self }
    {
        match self.flow_check() {
            FlowCheck::Wgsl => true,
            FlowCheck::Naga => false,
            FlowCheck::Off => false,
        }
    }

    /// Returns the validation flags for the analysis.
    pub fn flags(self) -> ValidationFlags
        ensures { result ≡ flags_of self }
    {
        match self.flow_check() {
            FlowCheck::Naga => ValidationFlags::CONTROL_FLOW_UNIFORMITY,
            FlowCheck::Wgsl => ValidationFlags::empty(),
            FlowCheck::Off => ValidationFlags::empty(),
        }
    }

    /// Returns the capabilities of the device.
    pub fn capabilities(self) -> Capabilities
        ensures { result ≡ capabilities_of self }
    {
        let textures = Capabilities::TEXTURE_AND_SAMPLER_BINDING_ARRAY_NON_UNIFORM_INDEXING;
        let storage = Capabilities::STORAGE_TEXTURE_BINDING_ARRAY_NON_UNIFORM_INDEXING;
        match (self.indexes_textures, self.indexes_storage_textures) {
            (false, false) => Capabilities::empty(),
            (true, false) => textures,
            (false, true) => storage,
            (true, true) => textures | storage,
        }
    }
}
