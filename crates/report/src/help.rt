//! The text of `--help`, which scripts/help_report.txt has too: the launcher prints that without a build.

/// What the program does, its options and its exit statuses. Files, and the formats `sarif` and `github`, are the launcher's.
pub const HELP: &str = "usage: report [OPTION..] [FILE..]

Checks naga 30 modules, printed as JSON by serde_json, and tells what is wrong with them. Without
a FILE, or if it is -, standard input is read.

What is checked
  --uniformity=wgsl|naga|off        how uniform control flow is decided (wgsl)
  --non-uniform-indexing=textures|storage-textures|textures,storage-textures
                                    arrays that the device can index by values that aren't uniform
What is told
  --explain                         what each code means, and why results may differ
  --all                             everything that is left out where there is much
  --all-structs                     the layout of each struct
  --drawing                         the same, with its bytes
  --resources                       globals with sizes, overrides, inputs and outputs
  --bounds-checks [KIND=POLICY,..]  accesses that need a check; KIND: index, buffer, image_load or
                                    binding_array; POLICY: Restrict, ReadZeroSkipWrite or Unchecked
How it is told
  --format=text|json|sarif|github   the form (text); --json is --format=json
  --help, --version

Status: 0 accepted, 1 refused, 2 wrong usage, 3 unreadable, 4 unwritable, 5 out of memory,
6 not a module. Of several files it is the highest.";

/// The line after a message on a wrong argument.
pub const USAGE: &str = "usage: report [OPTION..] [FILE..], or `report --help`";
