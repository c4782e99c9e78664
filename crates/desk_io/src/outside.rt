//! The traits of the outside. Their ghost members are what an object tells to contracts; one that
//! tells nothing has `None`, and then only the count of its failed calls is known.

ghost use Rattle.std.specs.Prelude.{◌≡◌, ◌≢◌, ℕ, ◌<◌, ◌≤◌, List, [], Option, None, Some, length, take, IfOk, OnErr, IfSome, IsSome, IsTrue};
ghost use Rattle.definitions.specs.Causes.{Rose};
ghost use Rattle.desk_io.specs.Told.{Appends, Takes, file_at, has_distinct_paths};

/// A call that failed. The object counted it.
#[derive(Clone, Copy, Debug, Drop, PartialEq, Eq)]
pub struct Failed;

/// An object that counts its failed calls.
pub trait Counted {
    /// The number of failed calls. It never falls, and stays at the last value of a u64.
    ghost count: { Self → ℕ };

    /// The number of failed calls.
    fn faults(&self) -> u64
        ensures value { result ≡ count self.now };
}

/// Where bytes come from.
pub trait Source: Counted {
    /// The bytes that are left, where they are told.
    ghost left: { Self → Option (List ℕ) };

    /// What the object tells besides the bytes left is the same before and after.
    ghost keeps_source_rest: { Self → Self → Type 0 };

    /// Takes the first bytes that are left into `buf`, and gives their number.
    ///
    /// The number is 0 only where `buf` is empty or no bytes are left. What stands in `buf` behind
    /// these bytes is left open. A failed read takes nothing.
    fn read(&mut self, buf: &mut [u8]) -> Result<usize, Failed>
        ensures within { IfOk result (λ n. n ≤ length buf.old) }
        ensures ok { IfOk result (λ n. Takes (left self.old) (left self.new) (take n buf.new)) }
        ensures end { IfOk result
            (λ n. n ≡ 0 → 0 < length buf.old → IfSome (left self.new) (λ bytes. bytes ≡ [])) }
        ensures err { OnErr result (left self.new ≡ left self.old) }
        ensures read_cause { OnErr result (Rose (Self.count self.old) (Self.count self.new)) }
        ensures count { Self.count self.old ≤ Self.count self.new }
        ensures rest { keeps_source_rest self.old self.new };

    ghost source_rest_reflexive: { (a : Self) → keeps_source_rest a a };

    ghost source_rest_transitive: { (a b c : Self)
        → keeps_source_rest a b → keeps_source_rest b c → keeps_source_rest a c };
}

/// Where bytes go to.
pub trait Sink: Counted {
    /// The bytes written so far, where they are told.
    ghost written: { Self → Option (List ℕ) };

    /// What the object tells besides the bytes written is the same before and after.
    ghost keeps_sink_rest: { Self → Self → Type 0 };

    /// Appends the first bytes of `piece` to those written, and gives their number.
    ///
    /// The number is 0 only where `piece` is empty. A failed write appends nothing.
    fn write(&mut self, piece: &[u8]) -> Result<usize, Failed>
        ensures within { IfOk result (λ n. n ≤ length piece.now) }
        ensures some { IfOk result (λ n. 0 < length piece.now → 0 < n) }
        ensures ok { IfOk result
            (λ n. Appends (written self.old) (written self.new) (take n piece.now)) }
        ensures err { OnErr result (written self.new ≡ written self.old) }
        ensures write_cause { OnErr result (Rose (Self.count self.old) (Self.count self.new)) }
        ensures count { Self.count self.old ≤ Self.count self.new }
        ensures rest { keeps_sink_rest self.old self.new };

    ghost sink_rest_reflexive: { (a : Self) → keeps_sink_rest a a };

    ghost sink_rest_transitive: { (a b c : Self)
        → keeps_sink_rest a b → keeps_sink_rest b c → keeps_sink_rest a c };
}

/// What became of a file that was to be begun.
#[derive(Clone, Copy, Debug, Drop, PartialEq, Eq)]
pub enum Begin {
    /// The bytes left are the file's.
    Found,
    /// There is no such file.
    Missing,
    /// The call failed, and the object counted it.
    Failed,
}

/// Files to read, one at a time.
pub trait Folder: Source {
    /// The files as pairs of a path and bytes, where they are told. No two have one path.
    ghost files: { Self → Option (List (List ℕ × List ℕ)) };

    /// Begins the file at `path`: its bytes are then the bytes left.
    ///
    /// After `Missing` and `Failed` no bytes are left.
    fn begin(&mut self, path: &str) -> Begin
        // When each answer comes.
        ensures found { result ≡ Begin.Found →
            IfSome (files self.old) (λ told. IsSome (file_at told path.now)) }
        ensures missing { result ≡ Begin.Missing →
            IfSome (files self.old) (λ told. file_at told path.now ≡ None) }
        ensures read_cause { result ≡ Begin.Failed →
            Rose (Self.count self.old) (Self.count self.new) }

        // What it leaves.
        ensures begun { result ≡ Begin.Found →
            IfSome (files self.old) (λ told. Self.left self.new ≡ file_at told path.now) }
        ensures none_left { result ≢ Begin.Found →
            IfSome (files self.old) (λ _. Self.left self.new ≡ Some []) }
        ensures count { Self.count self.old ≤ Self.count self.new }
        ensures files { files self.new ≡ files self.old }
        ensures distinct { IfSome (files self.old) (λ told. IsTrue (has_distinct_paths told)) };

    /// The files are told besides the bytes left, so a read keeps them.
    ghost files_kept: { (a b : Self) → Self.keeps_source_rest a b → files b ≡ files a };
}
