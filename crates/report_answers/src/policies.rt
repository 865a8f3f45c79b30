//! The policies of bounds checks in a command line argument, as `index=ReadZeroSkipWrite,buffer=Restrict`.
ghost use Rattle.std.specs.Prelude.{◌≡◌};
ghost use Rattle.report_answers.specs.Policies.{policies_of, setting_of, setting_text, with_setting};

use shader_bounds::{BoundsCheckPolicies, BoundsCheckPolicy};
use shader_type_text::Pieces;

/// The policy of a kind of access.
#[derive(Clone, Copy, Debug)]
enum Setting {
    /// That of arrays, vectors and matrices, if no other kind applies.
    Index(BoundsCheckPolicy),
    /// That of uniform and storage buffers.
    Buffer(BoundsCheckPolicy),
    /// That of loads of texels.
    ImageLoad(BoundsCheckPolicy),
    /// That of arrays of resources.
    BindingArray(BoundsCheckPolicy),
}

impl Setting {
    const ALL: [Setting; 12] = [
        Setting::Index(BoundsCheckPolicy::Restrict),
        Setting::Index(BoundsCheckPolicy::ReadZeroSkipWrite),
        Setting::Index(BoundsCheckPolicy::Unchecked),
        Setting::Buffer(BoundsCheckPolicy::Restrict),
        Setting::Buffer(BoundsCheckPolicy::ReadZeroSkipWrite),
        Setting::Buffer(BoundsCheckPolicy::Unchecked),
        Setting::ImageLoad(BoundsCheckPolicy::Restrict),
        Setting::ImageLoad(BoundsCheckPolicy::ReadZeroSkipWrite),
        Setting::ImageLoad(BoundsCheckPolicy::Unchecked),
        Setting::BindingArray(BoundsCheckPolicy::Restrict),
        Setting::BindingArray(BoundsCheckPolicy::ReadZeroSkipWrite),
        Setting::BindingArray(BoundsCheckPolicy::Unchecked),
    ];

    fn word(self) -> &'static str
        ensures { result.now ≡ setting_text self }
    {
        match self {
            Setting::Index(BoundsCheckPolicy::Restrict) => "index=Restrict",
            Setting::Index(BoundsCheckPolicy::ReadZeroSkipWrite) => "index=ReadZeroSkipWrite",
            Setting::Index(BoundsCheckPolicy::Unchecked) => "index=Unchecked",
            Setting::Buffer(BoundsCheckPolicy::Restrict) => "buffer=Restrict",
            Setting::Buffer(BoundsCheckPolicy::ReadZeroSkipWrite) => "buffer=ReadZeroSkipWrite",
            Setting::Buffer(BoundsCheckPolicy::Unchecked) => "buffer=Unchecked",
            Setting::ImageLoad(BoundsCheckPolicy::Restrict) => "image_load=Restrict",
            Setting::ImageLoad(BoundsCheckPolicy::ReadZeroSkipWrite) =>
                "image_load=ReadZeroSkipWrite",
            Setting::ImageLoad(BoundsCheckPolicy::Unchecked) => "image_load=Unchecked",
            Setting::BindingArray(BoundsCheckPolicy::Restrict) => "binding_array=Restrict",
            Setting::BindingArray(BoundsCheckPolicy::ReadZeroSkipWrite) =>
                "binding_array=ReadZeroSkipWrite",
            Setting::BindingArray(BoundsCheckPolicy::Unchecked) => "binding_array=Unchecked",
        }
    }

    /// Returns the setting that a part of an argument names.
    fn from_part(part: &[u8]) -> Option<Setting>
        ensures { result ≡ setting_of part.now }
    {
        Setting::ALL
            .iter()
            .copied()
            .find(|setting| setting.word().as_bytes() == part)
    }

    /// Returns the policies with this setting.
    fn added_to(self, policies: BoundsCheckPolicies) -> BoundsCheckPolicies
        ensures { result ≡ with_setting policies self }
    {
        match self {
            Setting::Index(policy) => BoundsCheckPolicies {
                index: policy,
                ..policies
            },
            Setting::Buffer(policy) => BoundsCheckPolicies {
                buffer: policy,
                ..policies
            },
            Setting::ImageLoad(policy) => BoundsCheckPolicies {
                image_load: policy,
                ..policies
            },
            Setting::BindingArray(policy) => BoundsCheckPolicies {
                binding_array: policy,
                ..policies
            },
        }
    }
}

/// Returns the policies that an argument sets, if each part between commas sets one. A policy that isn't set is `Unchecked`.
pub fn policies_of(word: &[u8]) -> Option<BoundsCheckPolicies>
    ensures { result ≡ policies_of word.now }
{
    let mut policies = BoundsCheckPolicies::default();
    for part in Pieces::new(word, b',') {
        let Some(setting) = Setting::from_part(part) else {
            return None;
        };
        policies = setting.added_to(policies);
    }
    Some(policies)
}
