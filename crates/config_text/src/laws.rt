//! What holds of the definitions alone: what a text spells, and what its first fault is.

ghost use Rattle.std.specs.Prelude.{◌≡◌, ◌<◌, ◌≤◌, ℕ, List, ◌⊎◌, length, take, true, Some, None, Err, codes};
ghost use Rattle.std.specs.List.{list_all};
ghost use Rattle.config_text.specs.declared.config.Config.{Config};
ghost use Rattle.config_text.specs.declared.text_kind.TextKind.{TextKind};
ghost use Rattle.config_text.specs.declared.text_kind.TextKind.TheVariants.{BadLine, BadName, BadWidth, BadOption};
ghost use Rattle.config_text.specs.Lines.{longest_text};
ghost use Rattle.config_text.specs.BareTexts.{SpellsBare, states_no_option};
ghost use Rattle.config_text.specs.ConnectionRows.{ab_to_cd, reads_ab_to_cd};
ghost use Rattle.config_text.specs.Connections.{link_line};
ghost use Rattle.config_text.specs.Contents.{content_of};
ghost use Rattle.config_text.specs.Parts.{BeginsComment, before_comment};
ghost use Rattle.config_text.specs.Text.{Spells, HasFault};
ghost use Rattle.config_text.specs.Canon.{canon, is_lawful_config};

/// Each text spells exactly one configuration, or has exactly one first fault, and never both.
pub fn one_reading()
    ensures some { (bytes : List ℕ) → ((config : Config) × Spells config bytes) ⊎ ((line : ℕ) × (kind : TextKind) × HasFault bytes line kind) }
    ensures apart { (bytes : List ℕ) (config : Config) (line : ℕ) (kind : TextKind) → Spells config bytes → HasFault bytes line kind → ⊥ }
    ensures one_config { (bytes : List ℕ) (a b : Config) → Spells a bytes → Spells b bytes → a ≡ b }
    ensures one_fault { (bytes : List ℕ) (m n : ℕ) (j k : TextKind) → HasFault bytes m j → HasFault bytes n k → (m ≡ n) × (j ≡ k) }
{}

/// What a text spells is lawful: names are names, no key stands twice, values, widths and counts are within the limits.
pub fn lawful_reading()
    ensures { (bytes : List ℕ) (config : Config) → Spells config bytes → is_lawful_config config ≡ true }
{}

/// A comment runs from the first `#` that has an even number of quotation marks before it on its line.
pub fn comment_reading()
    ensures front { (line : List ℕ) → before_comment line ≡ take (length (before_comment line)) line }
    ensures begins { (line : List ℕ) → length (before_comment line) < length line → BeginsComment line (length (before_comment line)) }
    ensures first { (line : List ℕ) (i : ℕ) → i < length (before_comment line) → BeginsComment line i → ⊥ }
{}

/// The canonical spelling of a lawful configuration, where it is short enough, spells that configuration.
pub fn canonical_reading()
    ensures { (config : Config) → is_lawful_config config ≡ true → length (canon config) ≤ longest_text → Spells config (canon config) }
{}

/// Where connections are written from the sender alone and state no option, as `a.p -> b.q` or `a.p -> b.q [7]`, the text
/// spells the configuration that is read off so, and no connection of it states an option.
pub fn bare_reading()
    ensures same { (config : Config) (bytes : List ℕ) → SpellsBare config bytes → Spells config bytes }
    ensures no_option { (config : Config) (bytes : List ℕ) → SpellsBare config bytes → list_all states_no_option config.links ≡ true }
{}

/// What some lines of connections say, and which fault others have.
pub fn connection_rows()
    ensures from_receiver { content_of (codes "c.d<-a.b[007]buffered=2 latency=1e-3") ≡ reads_ab_to_cd (Some 7) (Some 1000000) (Some 2) }
    ensures as_written { link_line (ab_to_cd (Some 7) (Some 1000000) (Some 2)) ≡ codes "a.b -> c.d [7] latency=0.001 buffered=2" }
    ensures no_latency_at_all { content_of (codes "a.b -> c.d latency=0") ≡ reads_ab_to_cd None (Some 0) None }
    ensures most_stated { content_of (codes "a.b -> c.d latency=1000000 buffered=1000000") ≡ reads_ab_to_cd None (Some 1000000000000000) (Some 1000000) }
    ensures no_time { content_of (codes "a.b <- c.d latency=x") ≡ Err BadOption }
    ensures time_above { content_of (codes "a.b -> c.d latency=1000000.000000001") ≡ Err BadOption }
    ensures no_blocks { content_of (codes "a.b -> c.d buffered=0") ≡ Err BadOption }
    ensures count_above { content_of (codes "a.b -> c.d buffered=1000001") ≡ Err BadOption }
    ensures latency_twice { content_of (codes "a.b -> c.d latency=0 latency=0") ≡ Err BadOption }
    ensures buffered_twice { content_of (codes "a.b -> c.d buffered=1 latency=0 buffered=1") ≡ Err BadOption }
    ensures blanks_at_equals { content_of (codes "a.b -> c.d latency = 1") ≡ Err BadOption }
    ensures second_bracket { content_of (codes "a.b -> c.d [1]]") ≡ Err BadOption }
    ensures word_behind_width { content_of (codes "a.b -> c.d [1] x") ≡ Err BadOption }
    ensures word_behind_end { content_of (codes "a.b -> c.d x") ≡ Err BadOption }
    ensures option_before_width { content_of (codes "a.b -> c.d latency=1 [4]") ≡ Err BadName }
    ensures both_arrows { content_of (codes "a.b<->c.d") ≡ Err BadName }
    ensures width_before_option { content_of (codes "a.b -> c.d [0] x") ≡ Err BadWidth }
    ensures name_before_width { content_of (codes "a.b -> c. [0] x") ≡ Err BadName }
    ensures line_before_name { content_of (codes "a. -> c. [0") ≡ Err BadLine }
{}
