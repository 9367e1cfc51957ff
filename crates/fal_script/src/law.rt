ghost use Rattle.std.specs.Prelude.{◌≡◌, List, ℕ, Ok};
ghost use Rattle.fal_script.specs.Ranges.{IsSpelledScript};
ghost use Rattle.fal_script.specs.Script.{script_of};
ghost use Rattle.fal_script.specs.declared.script.Script.{Script};

/// The script that bytes spell has 1 to 16 nodes and lanes, each line is of one of its lanes, and each call is one of the grammar.
pub fn scripts_are_in_range()
    ensures { (bytes : List ℕ) (script : Script) → script_of bytes ≡ Ok script → IsSpelledScript script }
{}
