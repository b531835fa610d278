//! Closed runs of small programs: what each prints, how it ends, what it costs and how many turns it takes.

ghost use Rattle.std.specs.Prelude.{◌≡◌, ℕ, pos, List, [], ◌∷◌, ◌++◌, map, replicate, true, false, Some, None, codes};
ghost use Rattle.odc_text.specs.Run.{exited, checked, strayed, going, out, err};
ghost use Rattle.odc_text.specs.declared.check.Check.TheVariants as check;
ghost use Rattle.odc_program.specs.Typing.Well.{well, has_runtime};
ghost use Rattle.odc_program.specs.Typing.Frames.{framed};
ghost use Rattle.odc_program.specs.Rows.Told.{told, asked, Prints, Leaves};
ghost use Rattle.odc_program.specs.States.Bytes.{global, nil, to};
ghost use Rattle.odc_program.specs.Rows.Writing.{at, zero, show, set, num, context_index, Plain};
ghost use Rattle.odc_program.specs.Trees.Tree as tree;
ghost use Rattle.odc_program.specs.Rows.First as first;
ghost use Rattle.odc_program.specs.Rows.Second as second;
ghost use Rattle.odc_program.specs.Rows.Third as third;
ghost use Rattle.odc_program.specs.Rows.Columns as columns;
ghost use Rattle.odc_program.specs.Rows.Asking as asking;
ghost use Rattle.odc_program.specs.Rows.Orders as orders;
ghost use Rattle.odc_program.specs.Rows.Framed.{frames, nodes, with_frames};
ghost use Rattle.odc_program.specs.Rows.Tables as tables;
ghost use Rattle.odc_program.specs.Views.TableRows.{rows_of};
ghost use Rattle.odc_program.specs.Rows.Ill as ill;

/// An `i8` wraps.
pub fn wraps()
    ensures { Prints first.wraps (codes "-128\n") (exited 0) 17 0 }
{}

/// `%` has the sign of the dividend and `%%` that of the divisor; the least value divided by -1 is the least value.
pub fn divides()
    ensures { Prints first.divides (codes "-1 2 -9223372036854775808\n") (exited 0) 55 0 }
{}

/// An index outside an array stops at its bracket.
pub fn past_the_end()
    ensures { Prints first.past_the_end (codes "1\n") (checked check.Index (at 38)) 18 0 }
{}

/// A check in a deferred statement ends the run.
pub fn late_check()
    ensures { Prints first.late_check (codes "a\n") (checked check.Division (at 30)) 16 0 }
{}

/// A scope gives the context around it back.
pub fn restored()
    ensures { Prints first.restored (codes "456\n123\n456\n") (exited 0) 47 3 }
{}

/// Deferred statements of a loop body run at each end of a turn.
pub fn defers_in_loop()
    ensures { Prints (first.defers_in_loop (tree.break_ 7)) (codes "10\n0\n1\n2\n") (exited 0) 71 3 }
{}

/// They run where `return` leaves the loop, too.
pub fn defers_before_return()
    ensures { Prints (first.defers_in_loop (tree.return tree.nothing)) (codes "10\n0\n1\n2\n") (exited 0) 71 3 }
{}

/// A nil union takes the default case, and an assertion on it stops.
pub fn nil_union()
    ensures { Prints first.nil_union (codes "none\n") (checked check.Assertion (at 110)) 31 0 }
{}

/// A loop by place changes the elements.
pub fn by_place()
    ensures { Prints second.by_place (codes "10 21 32\n") (exited 0) 63 3 }
{}

/// A loop by value over an array reads the elements as they are when their turn comes.
pub fn live()
    ensures { Prints second.live (codes "10\n20\n9\n") (exited 0) 63 3 }
{}

/// A loop with a header runs what stands behind each turn.
pub fn counted()
    ensures { Prints second.counted (codes "0\n1\n") (exited 0) 43 2 }
{}

/// A loop without end goes on past every bound.
pub fn endless()
    ensures { told second.endless [] 3 ≡ record { end = going; log = []; taken = 0; cost = 4; turns = 3 } }
{}

/// A switch tries its cases in order, takes the default last, and `fallthrough` goes on with the next body.
pub fn switched()
    ensures { Prints second.switched (codes "2\n3\n") (exited 0) 22 1 }
{}

/// `..<` leaves its high end out, `..=` doesn't.
pub fn spans()
    ensures { Prints second.spans (codes "2\n") (exited 0) 17 0 }
{}

/// The name of a case of a type switch is what the union holds.
pub fn variant()
    ensures { Prints second.variant (codes "5\n") (exited 0) 23 0 }
{}

/// A test of a union gives what it holds, or zero.
pub fn tested()
    ensures { Prints second.tested (codes "7 true\n false\n") (exited 0) 57 0 }
{}

/// Results are stored before deferred statements run, and answered behind them.
pub fn answered()
    ensures { Prints second.answered (codes "8\n") (exited 0) 28 2 }
{}

/// A call through nil stops behind its arguments.
pub fn nil_called()
    ensures { Prints second.nil_called (codes "4\n") (checked check.Nil (at 77)) 18 1 }
{}

/// A call through a value of another type strays behind its arguments, before its turn.
pub fn wrong_type()
    ensures { Prints second.wrong_type (codes "4\n") (strayed (at 77)) 15 1 }
{}

/// Arguments are evaluated in the order of the text, and go to the parameters that their names say.
pub fn named()
    ensures { Prints second.named (codes "4\n5\n-7\n") (exited 0) 42 3 }
{}

/// The right side of an assignment comes before its place.
pub fn sides()
    ensures { Prints second.sides (codes "2\n1\n5\n") (exited 0) 40 2 }
{}

/// The header of a slice is read behind the index.
pub fn header_later()
    ensures { Prints second.header_later (codes "30\n") (exited 0) 23 1 }
{}

/// Frames of more than 128 MiB in sum stop at the called procedure.
pub fn deep()
    ensures { Prints second.deep [] (checked check.Stack (at 6)) 24 8 }
{}

/// `or_return` leaves nested scopes through their deferred statements.
pub fn left_early()
    ensures { Prints second.left_early (codes "2 9\n5\nOut_Of_Memory\n") (exited 0) 66 1 }
{}

/// Helpers take no turn.
pub fn helped()
    ensures { Prints second.helped (codes "7 8\n9 10\n") (exited 0) 41 0 }
{}

/// A counted loop of a helper ends where its condition fails.
pub fn counts_down()
    ensures { Prints (second.counts_down 3) (codes "2\n1\n") (exited 0) 42 0 }
{}

/// A counted loop of a helper ends at its bound.
pub fn counts_to_its_bound()
    ensures { Prints (second.counts_down 1) (codes "2\n") (exited 0) 21 0 }
{}

/// `&&` and `||` evaluate their right sides only where they need them.
pub fn short()
    ensures { Prints second.short (codes "false true\n") (exited 0) 17 0 }
{}

/// Shifts and bitwise operators.
pub fn bits()
    ensures { Prints second.bits (codes "8 -4 4 5 7 2 -1\n") (exited 0) 38 0 }
{}

/// A shift by the width or more gives 0, or -1 for a negative number shifted right.
pub fn wide_shifts()
    ensures { Prints second.wide_shifts (codes "0 -1 0\n") (exited 0) 18 0 }
{}

/// Strings are compared byte by byte.
pub fn texts()
    ensures { Prints second.texts (codes "true true false\n") (exited 0) 36 0 }
{}

/// A conversion wraps, and a rune is printed in UTF-8.
pub fn converted()
    ensures { Prints second.converted (195 ∷ 169 ∷ codes " 44\n") (exited 0) 15 0 }
{}

/// The lesser, the greater, and a number without its sign.
pub fn extremes()
    ensures { Prints second.extremes (codes "3 5 4\n") (exited 0) 18 0 }
{}

/// So is one that a loop by value reads, whatever its byte was.
pub fn truth_element()
    ensures { Prints second.truth_element (codes "1\n") (exited 0) 24 1 }
{}

/// A truth value that is read is 0 or 1.
pub fn truth()
    ensures { Prints second.truth (codes "true true\n") (exited 0) 31 0 }
{}

/// The padding of a built value is zero.
pub fn padded()
    ensures { Prints second.padded (codes "1\n") (exited 0) 23 0 }
{}

/// A location holds the place of its node.
pub fn located()
    ensures { Prints second.located (codes "4\n") (exited 0) 6 0 }
{}

/// `os.exit` ends with the low eight bits and runs no deferred statement.
pub fn exits()
    ensures { Prints second.exits [] (exited 44) 4 0 }
{}

/// `print` ends no line.
pub fn prints()
    ensures { Prints second.prints (codes "1 true") (exited 0) 10 0 }
{}

/// What is written to the second descriptor stands in the log as such.
pub fn complains()
    ensures { Leaves second.complains (map err (replicate 2 0)) (exited 0) 10 0 }
{}

/// `panic` writes to the second descriptor and stops.
pub fn panics()
    ensures { Leaves second.panics (map err (codes "no\n")) (checked check.Panic (at 20)) 8 0 }
{}

/// `assert` stops where its condition is false.
pub fn asserts()
    ensures { Prints second.asserts [] (checked check.Assert (at 20)) 3 0 }
{}

/// `os.read` takes what is there, and `os.write` writes it.
pub fn copies_input()
    ensures { told second.copies_input (97 ∷ 98 ∷ []) 100 ≡ record { end = exited 0; log = map out (codes "ab2\n"); taken = 2; cost = 27; turns = 0 } }
{}

/// A read of a variable whose activation has ended strays at the dereference.
pub fn dangling()
    ensures { Prints second.dangling (codes "1\n") (strayed (at 41)) 24 1 }
{}

/// A write to a literal strays at the assignment.
pub fn writes_literal()
    ensures { Prints second.writes_literal [] (strayed (at 3)) 11 0 }
{}

/// Elements of a container in columns are stored, swapped and read as records.
pub fn in_columns()
    ensures { Prints third.in_columns (codes "9 0 2\n") (exited 0) 90 0 }
{}

/// A loop by place over such a container writes one column; one by value reads all.
pub fn loops_in_columns()
    ensures { Prints third.loops_in_columns (codes "4\n4\n4\n") (exited 0) 72 6 }
{}

/// `ordered_remove` closes up.
pub fn removes()
    ensures { Prints third.removes (codes "20 30 2\n") (exited 0) 57 0 }
{}

/// `unordered_remove` moves the last element into the place.
pub fn removes_unordered()
    ensures { Prints third.removes_unordered (codes "30 20 2\n") (exited 0) 55 0 }
{}

/// `pop` takes the last element.
pub fn pops()
    ensures { Prints third.pops (codes "2 20\n") (exited 0) 44 0 }
{}

/// `clear` leaves no element.
pub fn clears()
    ensures { Prints third.clears (codes "0\n") (exited 0) 32 0 }
{}

/// Removing an element that is not there stops.
pub fn removes_none()
    ensures { Prints third.removes_none [] (checked check.Index (at 70)) 26 0 }
{}

/// `resize` within the capacity zeroes what is behind the old length.
pub fn resizes()
    ensures { Prints third.resizes (codes "10 0\n") (exited 0) 51 0 }
{}

/// The first append asks for eight elements.
pub fn appends()
    ensures { Leaves third.appends (asked 1 (pos 0) (pos 64) (pos 8) nil (pos 0) ∷ map out (codes "2 9\n")) (exited 0) 76 1 }
{}

/// A growth asks for twice the capacity and eight more, with the old memory.
pub fn grows()
    ensures { Leaves third.grows (asked 1 (pos 3) (pos 112) (pos 8) (to (global 1342177280 0) 0) (pos 24) ∷ map out (codes "4 14 5\n")) (exited 0) 91 1 }
{}

/// Without memory the array stays as it is.
pub fn cannot_grow()
    ensures { Leaves third.cannot_grow (asked 1 (pos 3) (pos 112) (pos 8) (to (global 1342177280 0) 0) (pos 24) ∷ map out (codes "3 3\n")) (exited 0) 72 1 }
{}

/// `delete` gives the storage back to the kept allocator.
pub fn deletes()
    ensures { Leaves third.deletes (asked 1 (pos 1) (pos 0) (pos 0) (to (global 1342177280 0) 0) (pos 24) ∷ []) (exited 0) 58 1 }
{}

/// An append to a container in columns asks for the storage of eight records.
pub fn soa_appends()
    ensures { Leaves third.soa_appends (asked 1 (pos 0) (pos 72) (pos 8) nil (pos 0) ∷ map out (codes "9 1 8\n")) (exited 0) 103 1 }
{}

/// Its growth asks for new storage, copies the columns, and gives the old one back.
pub fn soa_grows()
    ensures { Leaves third.soa_grows (asked 1 (pos 0) (pos 216) (pos 8) nil (pos 0) ∷ asked 1 (pos 1) (pos 0) (pos 0) (to (global 1342177280 0) 0) (pos 72) ∷ map out (codes "9 11 18 1 8 9 24\n")) (exited 0) 208 2 }
{}

/// `new` asks the allocator of the context.
pub fn news()
    ensures { Leaves third.news (asked 1 (pos 0) (pos 8) (pos 8) nil (pos 0) ∷ map out (codes "5\n")) (exited 0) 45 1 }
{}

/// An append within the capacity asks no allocator.
pub fn appends_within()
    ensures { Prints third.appends_within (codes "2 5\n") (exited 0) 47 0 }
{}

/// `reserve` asks the kept allocator for a larger storage, and leaves the length.
pub fn reserves()
    ensures { Leaves third.reserves (asked 1 (pos 3) (pos 32) (pos 8) (to (global 1342177280 0) 0) (pos 24) ∷ map out (codes "3 4\n")) (exited 0) 81 1 }
{}

/// `free` gives back the size of what is pointed to.
pub fn frees()
    ensures { Leaves third.frees (asked 1 (pos 0) (pos 8) (pos 8) nil (pos 0) ∷ asked 1 (pos 1) (pos 0) (pos 0) (to (global 1342177280 0) 0) (pos 8) ∷ []) (exited 0) 64 2 }
{}

/// `make` and `delete` of a slice.
pub fn makes()
    ensures { Leaves third.makes (asked 1 (pos 0) (pos 16) (pos 8) nil (pos 0) ∷ map out (codes "2\n") ++ (asked 1 (pos 1) (pos 0) (pos 0) (to (global 1342177280 0) 0) (pos 16) ∷ [])) (exited 0) 75 2 }
{}

/// `free_all` names no memory.
pub fn frees_all()
    ensures { Leaves third.frees_all (asked 1 (pos 2) (pos 0) (pos 0) nil (pos 0) ∷ []) (exited 0) 30 1 }
{}

/// A loop over a slice reads its header once.
pub fn over_slice()
    ensures { Prints third.over_slice (codes "10\n20\n30\n") (exited 0) 39 3 }
{}

/// A default case may stand before the others.
pub fn default_first()
    ensures { Prints second.default_first (codes "9\n") (exited 0) 21 0 }
{}

/// A negative length stops.
pub fn negative()
    ensures { Prints third.negative [] (checked check.Length (at 20)) 3 0 }
{}

/// Lengths are checked first: a negative room stops, though the array is nil.
pub fn negative_room()
    ensures { Prints third.negative_room [] (checked check.Length (at 20)) 4 0 }
{}

/// A slice of raw memory has at most 2^62 bytes.
pub fn too_long()
    ensures { Prints third.too_long [] (checked check.Length (at 20)) 4 0 }
{}

/// An allocator without a procedure answers without a call.
pub fn none_there()
    ensures { Prints third.none_there (codes "Mode_Not_Implemented\n") (exited 0) 36 0 }
{}

/// A changed context reaches the built-ins of its scope, and `or_return` runs the deferred statements.
pub fn out_of_memory()
    ensures { Leaves third.out_of_memory (asked 2 (pos 0) (pos 32) (pos 8) nil (pos 0) ∷ map out (codes "2\n1\nOut_Of_Memory\n")) (exited 0) 80 2 }
{}

/// A contextless procedure asks the allocator of the first context.
pub fn without_context()
    ensures { Leaves third.without_context (asked 2 (pos 0) (pos 8) (pos 8) nil (pos 0) ∷ map out (codes "Out_Of_Memory\n")) (exited 0) 62 2 }
{}

/// `copy` moves the lesser length.
pub fn copies()
    ensures { Prints third.copies (codes "2 121\n") (exited 0) 20 0 }
{}

/// A slice past the end of its container stops at its bracket.
pub fn cut_too_far()
    ensures { Prints third.cut_too_far [] (checked check.Slice (at 30)) 5 0 }
{}

/// An element is removed from each column.
pub fn columns_close_up()
    ensures { Prints columns.removes (codes "2 30 2\n") (exited 0) 75 0 }
{}

/// The last element of each column moves into the place.
pub fn columns_move_last()
    ensures { Prints columns.removes_unordered (codes "3 20 2\n") (exited 0) 73 0 }
{}

/// The last record is taken out of its columns.
pub fn columns_pop()
    ensures { Prints columns.pops (codes "30 2\n") (exited 0) 55 0 }
{}

/// A slice of a container in columns has an address for each of them.
pub fn columns_cut()
    ensures { Prints columns.cuts (codes "20 2\n") (exited 0) 59 0 }
{}

/// A copy between such slices moves each column as if through a copy.
pub fn columns_copied()
    ensures { Prints columns.copies (codes "2\n2 30\n") (exited 0) 80 0 }
{}

/// The columns of an assigned element are found with its place, and a run strays there where one isn't there.
pub fn place_not_found()
    ensures { Prints columns.place_not_found [] (strayed (at 60)) 40 0 }
{}

/// A growth by `resize` asks the kept allocator, and zeroes the elements for which there was room.
pub fn resizes_beyond()
    ensures { Leaves asking.resizes (asked 1 (pos 3) (pos 40) (pos 8) (to (global 1342177280 0) 0) (pos 24) ∷ map out (codes "5 5 0 72340172838076673\n")) (exited 0) 115 1 }
{}

/// Fewer bytes than asked are want of memory.
pub fn answers_less()
    ensures { Leaves asking.answers_less (asked 1 (pos 0) (pos 8) (pos 8) nil (pos 0) ∷ map out (codes "Out_Of_Memory\n")) (exited 0) 52 1 }
{}

/// An allocator call takes its turn, stands in the log, and then meets the stack check.
pub fn no_stack()
    ensures { Leaves asking.no_stack (asked 1 (pos 2) (pos 0) (pos 0) nil (pos 0) ∷ []) (checked check.Stack (at 109)) 3 1 }
{}

/// Without a turn that is left it doesn't stand in the log.
pub fn no_turn()
    ensures { told asking.asks_for_ever [] 1 ≡ record { end = going; log = []; taken = 0; cost = 4; turns = 1 } }
{}

/// A marked call through a value stands in the log.
pub fn marked()
    ensures { Leaves asking.marked (asked 1 (pos 0) (pos 16) (pos 8) nil (pos 0) ∷ map out (codes "16 None\n")) (exited 0) 58 1 }
{}

/// The regions are bytes that begin as zeros.
pub fn regions()
    ensures { Prints asking.regions (codes "7 0 16777216\n1048576\n") (exited 0) 55 0 }
{}

/// A slice of raw memory lies where its address says.
pub fn slices_raw()
    ensures { Prints asking.slices_raw (codes "9 3\n") (exited 0) 31 0 }
{}

/// `os.read` needs all of its room, and takes no input where that isn't there.
pub fn reads_outside()
    ensures { told asking.reads_outside (97 ∷ 98 ∷ []) 100 ≡ record { end = strayed (at 20); log = []; taken = 0; cost = 15; turns = 0 } }
{}

/// A callee that stops does so before its arguments are evaluated.
pub fn callee_first()
    ensures { Prints orders.callee_first [] (checked check.Nil (at 60)) 7 0 }
{}

/// An assignment with an operator finds its place once.
pub fn finds_once()
    ensures { Prints orders.finds_once (codes "4\n5\n") (exited 0) 30 1 }
{}

/// And reads it before its right side is evaluated.
pub fn reads_first()
    ensures { Prints orders.reads_first (codes "5\n") (exited 0) 21 1 }
{}

/// The ends of a range are read once.
pub fn ends_once()
    ensures { Prints orders.ends_once (codes "0\n1\n") (exited 0) 31 2 }
{}

/// A part of several becomes a variant where it is stored in a union.
pub fn becomes_variant()
    ensures { Prints orders.becomes_variant (codes "7\n") (exited 0) 41 0 }
{}

/// The nodes of procedures: expressions, statements and variables.
pub fn nodes_counted()
    ensures { nodes first.wraps ++ nodes third.pops ≡ 9 ∷ 18 ∷ [] }
{}

/// The sizes of frames, as the trees of procedures give them.
pub fn frames_sized()
    ensures { frames first.wraps ++ frames first.past_the_end ++ frames first.nil_union ++ frames second.tested ++ frames third.pops ++ frames second.named ≡ 1472 ∷ 2016 ∷ 2528 ∷ 3456 ∷ 2816 ∷ 944 ∷ 1232 ∷ 1072 ∷ 1072 ∷ [] }
{}

/// Programs whose frames are those of their trees, or aren't.
pub fn frames_tested()
    ensures { map framed (with_frames (1472 ∷ []) first.wraps ∷ with_frames (944 ∷ 1232 ∷ 1072 ∷ 1072 ∷ []) second.named ∷ with_frames (1488 ∷ []) first.wraps ∷ with_frames (528 ∷ []) ill.too_near ∷ with_frames (1056 ∷ []) second.helped ∷ []) ≡ true ∷ true ∷ false ∷ false ∷ false ∷ [] }
{}

/// A variable that a deferred statement declares is there, but not yet: a run strays where it is read.
pub fn declared_late()
    ensures { Prints ill.declared_late [] (strayed (at 1)) 5 0 }
{}

/// The rows of a small table of types: sizes, offsets and names, and what distinct types stand for.
#[tactic(auto, unfolding(odc_types::specs::Layout::fields_of))]
pub fn rows_of_a_table()
    ensures { rows_of tables.bytes_of tables.nodes ≡ tables.rows }
{}

/// A program over the rows of a table is well.
#[tactic(auto, unfolding(odc_types::specs::Layout::fields_of))]
pub fn rows_are_well()
    ensures { well tables.over_rows ≡ true }
{}

/// Small programs that are well.
pub fn first_are_well()
    ensures { map well (first.wraps ∷ first.divides ∷ first.past_the_end ∷ first.late_check ∷ first.restored ∷ first.defers_in_loop (tree.break_ 7) ∷ first.nil_union ∷ []) ≡ replicate 7 true }
{}

/// More of them, with loops, calls, helpers and files.
pub fn second_are_well()
    ensures { map well (second.by_place ∷ second.live ∷ second.counted ∷ second.endless ∷ second.switched ∷ second.spans ∷ second.variant ∷ second.default_first ∷ second.tested ∷ second.answered ∷ second.nil_called ∷ second.named ∷ second.sides ∷ second.header_later ∷ second.deep ∷ second.left_early ∷ second.helped ∷ second.counts_down 3 ∷ second.short ∷ second.bits ∷ second.wide_shifts ∷ second.texts ∷ second.converted ∷ second.extremes ∷ second.truth ∷ second.truth_element ∷ second.padded ∷ second.located ∷ second.prints ∷ second.complains ∷ second.exits ∷ second.panics ∷ second.asserts ∷ second.copies_input ∷ second.dangling ∷ second.writes_literal ∷ []) ≡ replicate 36 true }
{}

/// More of them, with containers in columns and allocators.
pub fn third_are_well()
    ensures { map well (third.in_columns ∷ third.loops_in_columns ∷ third.frees ∷ third.makes ∷ third.frees_all ∷ third.over_slice ∷ third.news ∷ third.negative ∷ third.negative_room ∷ third.too_long ∷ third.none_there ∷ third.out_of_memory ∷ third.copies ∷ third.cut_too_far ∷ ill.distinct_pointer ∷ ill.in_columns_of 16 ∷ []) ≡ replicate 16 true }
{}

/// And these: with regions and raw memory, orders of evaluation, and marked calls.
pub fn others_are_well()
    ensures { map well (asking.answers_less ∷ asking.marked ∷ asking.regions ∷ asking.slices_raw ∷ asking.reads_outside ∷ orders.callee_first ∷ orders.finds_once ∷ orders.reads_first ∷ orders.ends_once ∷ orders.becomes_variant ∷ []) ≡ replicate 10 true }
{}

/// And some more: switches that cover an enum, by a span and a default, or a union; results and elements that are assigned;
/// a contextless procedure that assigns a context; a struct that points to itself.
pub fn covering_are_well()
    ensures { map well (ill.over_errors 4 tree.no_cases ∷ ill.over_errors 1 (tree.default_case tree.finish tree.no_cases) ∷ ill.over_variants (tree.type_case (2 ∷ []) None tree.finish tree.no_types) ∷ ill.over_variants (tree.default_type None tree.finish tree.no_types) ∷ ill.result_assigned ∷ ill.turn_assigned true ∷ ill.assigns_context (zero 1 ∷ ill.set_context ∷ show (context_index ∷ []) ∷ []) ∷ ill.touches_helper 3952 ∷ ill.linked ∷ ill.global_of 0 ∷ ill.declared_late ∷ ill.over_union (tree.default_case tree.finish tree.no_cases) ∷ asking.built_ins ∷ []) ≡ replicate 13 true }
{}

/// Programs that aren't well: a call through another type, labels and variables that aren't there, variables that lie
/// too near or past their frame, values of other types, needs, and a `main` with a result.
pub fn are_not_well()
    ensures { map well (second.wrong_type ∷ first.defers_in_loop (tree.break_ 8) ∷ ill.too_near ∷ ill.past_frame ∷ ill.mistyped ∷ ill.unknown ∷ ill.needs_twice ∷ ill.needs_none ∷ ill.too_many ∷ ill.main_answers ∷ ill.changes_text ∷ []) ≡ replicate 11 false }
{}

/// More of them: statements that leave a deferred one or a last case, what a scope without a context asks it for, a loop
/// of helpers outside them, operands of a wrong kind, a built value in another type's variable, a location of no file,
/// types that stand twice or differ from their base, and a variable where a helper's lie.
pub fn neither_are_these()
    ensures { map well (ill.falls_out ∷ ill.returns_late ∷ ill.breaks_late ∷ ill.counts_itself ∷ ill.helper_allocates ∷ third.without_context ∷ ill.compares_slices ∷ ill.signed_count ∷ ill.lesser_rune ∷ ill.built_elsewhere ∷ ill.located_nowhere ∷ ill.distinct_of_another ∷ ill.pointer_twice ∷ ill.over_helper ∷ ill.taken_twice ∷ []) ≡ replicate 15 false }
{}

/// And more: types without a name or with another's, columns of too many fields, a label twice, a variable before and
/// behind its scope, switches that don't cover their subject, and parameters and names of loops that are assigned.
pub fn nor_these()
    ensures { map well (ill.unnamed ∷ ill.named_integer ∷ ill.one_name ∷ ill.in_columns_of 17 ∷ ill.one_label ∷ ill.too_early ∷ ill.too_late ∷ ill.over_errors 3 tree.no_cases ∷ ill.over_variants tree.no_types ∷ ill.parameter_assigned ∷ ill.parameter_addressed ∷ ill.turn_assigned false ∷ []) ≡ replicate 12 false }
{}

/// A procedure that stands twice, a location whose literal is another, and a statement in a file without a path.
pub fn nor_those()
    ensures { map well (ill.instance_twice ∷ ill.other_path ∷ ill.stands_nowhere ∷ []) ≡ replicate 3 false }
{}

/// Contexts that aren't there, helpers that call or lie too near, allocators of another type, variables that begin twice
/// or are others', the address of an element in columns, parts, defaults and headers that don't go together, and types
/// that no value has.
pub fn nor_any_of_these()
    ensures { map well (ill.assigns_context (set context_index (num 1) ∷ []) ∷ ill.helper_calls ∷ ill.touches_helper 3960 ∷ ill.asks_another Plain ∷ ill.marked_other ∷ ill.declared_twice ∷ ill.result_declared ∷ ill.parameter_runs ∷ ill.element_addressed ∷ ill.part_twice ∷ ill.default_twice ∷ ill.header_defers ∷ ill.several_of_one ∷ ill.variable_of_several ∷ ill.too_great ∷ ill.holds_itself ∷ ill.points_to_itself ∷ ill.global_of 9 ∷ ill.global_twice ∷ ill.text_twice ∷ ill.path_twice ∷ ill.helper_context ∷ ill.over_union tree.no_cases ∷ ill.parameter_cut ∷ []) ≡ replicate 24 false }
{}

/// Whether the two allocator procedures of the runtime library are there.
pub fn runtime()
    ensures { map has_runtime (ill.with_runtime (Some 2) ∷ ill.with_runtime None ∷ ill.with_runtime (Some 0) ∷ ill.with_runtime (Some 3) ∷ []) ≡ true ∷ replicate 3 false }
{}
