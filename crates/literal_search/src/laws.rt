//! Consequences of the definitions, for callers. Call a law where its fact is needed.
ghost use Rattle.std.specs.Prelude.{◌≡◌, ◌+◌, ◌*◌, ◌<◌, ◌≤◌, ◌-◌, ◌^◌, ◌++◌, ◌∷◌, [], ℕ, Bool, List, length, take, Err};
ghost use Rattle.std.specs.Prelude.{◌↔◌, ◌⊎◌, IsNone, None, Ok, Option, Result, Some, false, map, slice_range, sum_by};
ghost use Rattle.std.specs.Io.KnownBytes.{Consumes};
ghost use Rattle.std.specs.Iterator.{Yields};
ghost use Rattle.std.specs.List.{All};
ghost use Rattle.std.specs.Str.{IsCharBoundary, IsUtf8};
ghost use Rattle.std.specs.declared.io.Error.{Error};
ghost use Rattle.literal_base.specs.declared.packed.MatchKind.TheVariants.{LeftmostLongest};
ghost use Rattle.literal_base.specs.declared.search.Span.{Span};
ghost use Rattle.literal_base.specs.Counts.{Counts};
ghost use Rattle.literal_base.specs.Greedy.{IsGreedy, IsGreedyIn};
ghost use Rattle.literal_base.specs.MatchValue.{MatchValue};
ghost use Rattle.literal_base.specs.Occurs.{NoneIsEmpty, Occurs, between, pattern_at, rest_from, whole_of};
ghost use Rattle.literal_base.specs.Query.{Query};
ghost use Rattle.literal_search.specs.LookUps.{ScansRest};
ghost use Rattle.literal_search.specs.SearchValue.{ScansListAtMost, SearchValue, longest_of};
ghost use Rattle.literal_search.specs.At.{IsMatchIn};
ghost use Rattle.literal_search.specs.Automaton.{AreAtEnd, OccursAtEnd};
ghost use Rattle.literal_search.specs.MatchesValue.{GivesCounted, GivesMatch, MatchesValue};
ghost use Rattle.literal_search.specs.Overlapping.{IsOverlapping, OverlappingValue};
ghost use Rattle.literal_search.specs.OverlappingMatchesValue.{GivesOverlapping, OverlappingMatchesValue};
ghost use Rattle.literal_search.specs.OverlappingStream.{BeginsStream, GivesInStream, OverlappingStreamValue};
ghost use Rattle.literal_search.specs.Prepared.{IsPrepared, IsWhole, RefusesToPrepare, TakesPlaces, check_of};
ghost use Rattle.literal_search.specs.Prepared.{prepared_len};
ghost use Rattle.literal_search.specs.PreparedOverlapping.{IsPreparedOverlapping, IsWholeOverlapping, overlapping_len};
ghost use Rattle.literal_search.specs.Replaced.{replaced};
ghost use Rattle.literal_rows.specs.declared.array.ArrayTooShort.{ArrayTooShort};
ghost use Rattle.literal_search.specs.Stream.{GivesStreamed, GivesStreamedCounted, GivesWordStreamed, StreamValue};
ghost use Rattle.literal_search.specs.Stream.{WordStreamValue, stream_of, word_stream_of};
ghost use Rattle.literal_search.specs.WholeWords.{AreWholeWords, OccursAlone, WholeWordsValue};

/// After an iterator answers `None`, it is at the end of its span (`ends`). There it always answers `None` and stays.
pub fn none_is_for_good()
    ensures ends { (old new : MatchesValue) → GivesMatch old None new → new.at ≡ new.span.end }
    ensures stays { (old new : MatchesValue) (answer : Option MatchValue) → old.at ≡ old.span.end
        → GivesMatch old answer new → IsNone answer × (new.at ≡ old.at) }
{}

/// The matches that an iterator gives before its first `None` are the greedy list from the offset where it began.
pub fn iterations_are_greedy()
    ensures { (first last ended : MatchesValue) (all : List MatchValue) → Yields GivesMatch first all last
        → GivesMatch last None ended
        → IsGreedyIn first.search.query first.search.ignore_case first.haystack (between first.at first.span.end) all }
{}

/// An iteration that counts also gives the greedy list before its first `None` (`greedy`). It scans at most as many
/// bytes as a list of the span may look up, minus those that it had looked up before (`bounded`), for any number of
/// matches; and each byte that it had not looked up (`each`). One more match extends an iteration (`more`).
pub fn iterations_scan_at_most()
    ensures bounded { (first last ended : MatchesValue × Counts) (all : List MatchValue)
        → Yields GivesCounted first all last → GivesCounted last None ended
        → ScansRest (longest_of first.0.search.query.patterns) first.0.span first.0.look_ups first.1 ended.1 }
    ensures each { (first last ended : MatchesValue × Counts) (all : List MatchValue)
        → Yields GivesCounted first all last → GivesCounted last None ended
        → first.1.scanned + (first.0.span.end - first.0.span.start) ≤ ended.1.scanned + first.0.look_ups.least }
    ensures greedy { (first last ended : MatchesValue × Counts) (all : List MatchValue)
        → Yields GivesCounted first all last → GivesCounted last None ended
        → IsGreedyIn first.0.search.query first.0.search.ignore_case first.0.haystack
        (between first.0.at first.0.span.end) all }
    ensures more { (first last next : MatchesValue × Counts) (all : List MatchValue) (found : MatchValue)
        → Yields GivesCounted first all last → GivesCounted last (Some found) next
        → Yields GivesCounted first (all ++ found ∷ []) next }
{}

/// If the bytes of a reader are known, the matches that an iteration over a stream has given begin the greedy list of
/// these bytes (`so_far`). After its first `None`, without an error before it, they are that list (`whole`), and the
/// iteration is past all bytes (`read`). After an error, no further match begins before the last bytes that were read,
/// fewer than the longest pattern has (`failed`). If its bytes are not known, the matches before the first `None` are
/// the greedy list of all that was read (`all_read`).
pub fn streams_are_greedy()
    ensures so_far { (search : SearchValue) (bytes : List ℕ) (last : StreamValue) (all more : List MatchValue)
        → Yields GivesStreamed (stream_of search (Some bytes)) (map Ok all) last
        → IsGreedy search.query search.ignore_case bytes last.offset more
        → IsGreedy search.query search.ignore_case bytes 0 (all ++ more) }
    ensures whole { (search : SearchValue) (bytes : List ℕ) (last ended : StreamValue) (all : List MatchValue)
        → Yields GivesStreamed (stream_of search (Some bytes)) (map Ok all) last → GivesStreamed last None ended
        → IsGreedy search.query search.ignore_case bytes 0 all }
    ensures read { (search : SearchValue) (bytes : List ℕ) (last ended : StreamValue) (all : List MatchValue)
        → Yields GivesStreamed (stream_of search (Some bytes)) (map Ok all) last → GivesStreamed last None ended
        → ended.offset ≡ length bytes }
    ensures failed { (search : SearchValue) (bytes : List ℕ) (last ended : StreamValue) (all : List MatchValue)
        (error : Error) → Yields GivesStreamed (stream_of search (Some bytes)) (map Ok all) last
        → GivesStreamed last (Some (Err error)) ended → (i offset : ℕ)
        → Occurs search.query.patterns search.ignore_case bytes (rest_from bytes last.offset) i offset
        → ended.offset - (longest_of search.query.patterns - 1) ≤ offset }
    ensures all_read { (search : SearchValue) (unread : Option (List ℕ)) (last ended : StreamValue)
        (all : List MatchValue) → Yields GivesStreamed (stream_of search unread) (map Ok all) last
        → GivesStreamed last None ended → (text : List ℕ) × Consumes unread ended.unread text
        × (ended.offset ≡ length text) × IsGreedy search.query search.ignore_case text 0 all }
{}

/// An iteration over a stream that counts scans at most as many bytes as two lists of all bytes that it has read, for
/// any number of answers (`bounded`). After `None` these are the bytes before its offset (`ended`). Without its counts
/// it is an iteration over the stream (`streamed`). One more answer extends an iteration (`more`).
pub fn streams_scan_at_most()
    ensures bounded { (search : SearchValue) (unread : Option (List ℕ)) (first last next : StreamValue × Counts)
        (all : List (Result MatchValue Error)) (answer : Option (Result MatchValue Error))
        → first.0 ≡ stream_of search unread → Yields GivesStreamedCounted first all last
        → GivesStreamedCounted last answer next
        → ScansListAtMost search.query.patterns (2 * (next.0.offset + length next.0.held)) first.1 next.1 }
    ensures ended { (search : SearchValue) (unread : Option (List ℕ)) (first last next : StreamValue × Counts)
        (all : List (Result MatchValue Error)) → first.0 ≡ stream_of search unread
        → Yields GivesStreamedCounted first all last → GivesStreamedCounted last None next
        → ScansListAtMost search.query.patterns (2 * next.0.offset) first.1 next.1 }
    ensures streamed { (first last : StreamValue × Counts) (all : List (Result MatchValue Error))
        → Yields GivesStreamedCounted first all last → Yields GivesStreamed first.0 all last.0 }
    ensures more { (first last next : StreamValue × Counts) (all : List (Result MatchValue Error))
        (one : Result MatchValue Error) → Yields GivesStreamedCounted first all last
        → GivesStreamedCounted last (Some one) next → Yields GivesStreamedCounted first (all ++ one ∷ []) next }
{}

/// The same of whole words: if the bytes of a reader are known, the words that an iteration over a stream has given
/// begin the list of all whole words of these bytes (`so_far`). After its first `None`, without an error before it,
/// they are that list (`whole`), and the iteration is past all bytes (`read`). After an error, no further whole word
/// begins before the last bytes that were read, as many as the longest pattern has (`failed`). If the bytes are not
/// known, the words before the first `None` are all whole words of all that was read (`all_read`).
pub fn word_streams_are_whole_words()
    ensures so_far { (words : WholeWordsValue) (bytes : List ℕ) (last : WordStreamValue) (all more : List MatchValue)
        → Yields GivesWordStreamed (word_stream_of words (Some bytes)) (map Ok all) last
        → AreWholeWords words bytes (rest_from bytes last.stream.offset) more
        → AreWholeWords words bytes (whole_of bytes) (all ++ more) }
    ensures whole { (words : WholeWordsValue) (bytes : List ℕ) (last ended : WordStreamValue) (all : List MatchValue)
        → Yields GivesWordStreamed (word_stream_of words (Some bytes)) (map Ok all) last
        → GivesWordStreamed last None ended → AreWholeWords words bytes (whole_of bytes) all }
    ensures read { (words : WholeWordsValue) (bytes : List ℕ) (last ended : WordStreamValue) (all : List MatchValue)
        → Yields GivesWordStreamed (word_stream_of words (Some bytes)) (map Ok all) last
        → GivesWordStreamed last None ended → ended.stream.offset ≡ length bytes }
    ensures failed { (words : WholeWordsValue) (bytes : List ℕ) (last ended : WordStreamValue) (all : List MatchValue)
        (error : Error) → Yields GivesWordStreamed (word_stream_of words (Some bytes)) (map Ok all) last
        → GivesWordStreamed last (Some (Err error)) ended → (i offset : ℕ)
        → OccursAlone words.search.query.patterns words.search.ignore_case words.word_bytes bytes
        (rest_from bytes last.stream.offset) i offset
        → ended.stream.offset - longest_of words.search.query.patterns ≤ offset }
    ensures all_read { (words : WholeWordsValue) (unread : Option (List ℕ)) (last ended : WordStreamValue)
        (all : List MatchValue) → Yields GivesWordStreamed (word_stream_of words unread) (map Ok all) last
        → GivesWordStreamed last None ended → (text : List ℕ) × Consumes unread ended.stream.unread text
        × (ended.stream.offset ≡ length text) × AreWholeWords words text (whole_of text) all }
{}

/// If the bytes of a reader are known, an iteration over every occurrence in a stream gives each of them once before
/// its first `None`, in the order of ends and, at one end, of pattern numbers (`whole`). Then it is past all bytes
/// (`read`). Before an error it gives each occurrence in the bytes that were read (`failed`).
pub fn streams_give_each_occurrence_once()
    ensures whole { (search : OverlappingValue) (bytes : List ℕ) (first last ended : OverlappingStreamValue)
        (all : List MatchValue) → BeginsStream search (Some bytes) first
        → Yields GivesInStream first (map Ok all) last → GivesInStream last None ended
        → IsOverlapping search.patterns search.ignore_case bytes (whole_of bytes) all }
    ensures read { (search : OverlappingValue) (bytes : List ℕ) (first last ended : OverlappingStreamValue)
        (all : List MatchValue) → BeginsStream search (Some bytes) first
        → Yields GivesInStream first (map Ok all) last → GivesInStream last None ended
        → ended.offset ≡ length bytes }
    ensures failed { (search : OverlappingValue) (bytes : List ℕ) (first last ended : OverlappingStreamValue)
        (all : List MatchValue) (error : Error) → BeginsStream search (Some bytes) first
        → Yields GivesInStream first (map Ok all) last → GivesInStream last (Some (Err error)) ended
        → IsOverlapping search.patterns search.ignore_case bytes (between 0 ended.offset) all }
{}

/// An iteration over every occurrence in a span gives each occurrence once before its first `None`, in the order of
/// ends and, at one end, of pattern numbers.
pub fn iterations_give_each_occurrence_once()
    ensures { (search : OverlappingValue) (haystack : List ℕ) (span : Span) (first last ended : OverlappingMatchesValue)
        (all : List MatchValue)
        → first ≡ record { search = search; haystack = haystack; span = span; end = span.start; pattern = 0 }
        → Yields GivesOverlapping first all last → GivesOverlapping last None ended
        → IsOverlapping search.patterns search.ignore_case haystack span all }
{}

/// If case is kept, replacing each match by its own pattern changes nothing (`same`). Replacing makes a text longer by
/// the replacements, and shorter by the matches (`length`).
pub fn replacing_changes_the_matches_alone()
    ensures same { (query : Query) (haystack : List ℕ) (all : List MatchValue)
        → IsGreedy query false haystack 0 all → replaced haystack query.patterns 0 all ≡ haystack }
    ensures length { (query : Query) (ignore_case : Bool) (haystack : List ℕ) (replacements : List (List ℕ))
        (all : List MatchValue) → IsGreedy query ignore_case haystack 0 all
        → length (replaced haystack replacements 0 all) + sum_by (λ found. found.end - found.start) all
        ≡ length haystack + sum_by (λ found. length (pattern_at replacements found.pattern)) all }
{}

/// If the patterns are non-empty texts, an occurrence in a text begins and ends between characters, also with case
/// ignored. So [`Span::of_str`](crate::Span::of_str) may be called with a match.
pub fn matches_of_texts_lie_between_characters()
    ensures { (patterns : List (List ℕ)) (ignore_case : Bool) (text : List ℕ) (span : Span) (i at : ℕ)
        → All IsUtf8 patterns → NoneIsEmpty patterns → IsUtf8 text → span.end ≤ length text
        → Occurs patterns ignore_case text span i at
        → IsCharBoundary text at × IsCharBoundary text (at + length (pattern_at patterns i)) }
{}

/// An array begins with a prepared search if its first entries do. A prepared search takes as many entries as its
/// numbers say, so these entries alone may be copied.
pub fn first_places_are_enough()
    ensures longer { (search : SearchValue) (numbers : List ℕ) (n : ℕ)
        → IsPrepared search (take n numbers) → IsPrepared search numbers }
    ensures shorter { (search : SearchValue) (numbers : List ℕ) (n : ℕ)
        → IsPrepared search numbers → prepared_len numbers ≤ n → IsPrepared search (take n numbers) }
    ensures longer_overlapping { (search : OverlappingValue) (numbers : List ℕ) (n : ℕ)
        → IsPreparedOverlapping search (take n numbers) → IsPreparedOverlapping search numbers }
    ensures shorter_overlapping { (search : OverlappingValue) (numbers : List ℕ) (n : ℕ)
        → IsPreparedOverlapping search numbers → overlapping_len numbers ≤ n
        → IsPreparedOverlapping search (take n numbers) }
{}

/// A search always takes the same number of entries (`once`). So an array of
/// [`Search::prepared_len`](crate::Search::prepared_len) entries or more is never refused (`enough`).
pub fn prepared_lengths_are_enough()
    ensures once { (search : SearchValue) (n m : ℕ) → TakesPlaces search n → TakesPlaces search m → n ≡ m }
    ensures enough { (search : SearchValue) (n : ℕ) (array : List ℕ) (error : ArrayTooShort)
        → TakesPlaces search n → n ≤ length array → ¬ RefusesToPrepare search array error }
{}

/// A checksum finds a change of one number: if the checksum is the same, so is that number.
pub fn changed_number_is_found()
    ensures { (before behind : List ℕ) (one other : ℕ) → one < 2 ^ 32 → other < 2 ^ 32
        → check_of (before ++ one ∷ behind) ≡ check_of (before ++ other ∷ behind) → one ≡ other }
{}

/// No array with only zeros after its version is whole.
pub fn zeros_are_refused()
    ensures prepared { (version : ℕ) (zeros : List ℕ) → All (λ number. number ≡ 0) zeros
        → ¬ IsWhole (version ∷ zeros) }
    ensures overlapping { (version : ℕ) (zeros : List ℕ) → All (λ number. number ≡ 0) zeros
        → ¬ IsWholeOverlapping (version ∷ zeros) }
{}

/// If an iterator over every occurrence answers `None`, it always does so afterwards, and stays unchanged.
pub fn overlapping_is_over_for_good()
    ensures { (old new newer : OverlappingMatchesValue) (answer : Option MatchValue) → GivesOverlapping old None new
        → GivesOverlapping new answer newer → IsNone answer × (newer ≡ new) }
{}

/// With `LeftmostLongest`, each pattern that occurs where a match of [`Search::match_in`](crate::Search::match_in)
/// begins, in the same span, is as long as the match, or occurs in the span that ends one byte before the match does.
/// So repeated calls, each with such a span, give a match of each length, the longest first.
pub fn shorter_matches_lie_in_shorter_spans()
    ensures { (query : Query) (ignore_case : Bool) (haystack : List ℕ) (span : Span) (found : MatchValue) (i : ℕ)
        → query.kind ≡ LeftmostLongest → IsMatchIn query ignore_case haystack span (Some found)
        → Occurs query.patterns ignore_case haystack span i span.start
        → (length (pattern_at query.patterns i) ≡ found.end - found.start)
        ⊎ Occurs query.patterns ignore_case haystack (between span.start (found.end - 1)) i span.start }
{}

/// A pattern occurs at the end of a part of a haystack, taken as a text of its own, exactly if it occurs there in the
/// haystack (`one`). So the patterns that are suffixes of the part are those that occur at its end (`all`).
pub fn parts_end_as_in_the_haystack()
    ensures one { (patterns : List (List ℕ)) (ignore_case : Bool) (haystack : List ℕ) (from at i : ℕ)
        → from ≤ at → at ≤ length haystack
        → OccursAtEnd patterns ignore_case (slice_range haystack from at) (whole_of (slice_range haystack from at)) i
        ↔ OccursAtEnd patterns ignore_case haystack (between from at) i }
    ensures all { (patterns : List (List ℕ)) (ignore_case : Bool) (haystack : List ℕ) (from at : ℕ) (all : List ℕ)
        → from ≤ at → at ≤ length haystack
        → AreAtEnd patterns ignore_case (slice_range haystack from at) (whole_of (slice_range haystack from at)) all
        → AreAtEnd patterns ignore_case haystack (between from at) all }
{}
