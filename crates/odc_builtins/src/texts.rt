// The texts of the library's packages that are written in the language itself, byte for byte.

/// The one file of `base:runtime`: the context, the heap and arena allocators, and `default_context`.
pub const RUNTIME: &str = "\
package runtime\n\
\n\
Allocator_Mode :: enum u8 {Alloc, Free, Free_All, Resize, Query_Features, Query_Info}\n\
Allocator_Error :: enum u8 {None, Out_Of_Memory, Invalid_Pointer, Invalid_Argument, Mode_Not_Implemented}\n\
Source_Code_Location :: struct {file_path: string, line, column: i32, procedure: string}\n\
Allocator_Proc :: #type proc(allocator_data: rawptr, mode: Allocator_Mode, size, alignment: int, old_memory: rawptr, old_size: int, location: Source_Code_Location = #caller_location) -> ([]byte, Allocator_Error)\n\
Allocator :: struct {procedure: Allocator_Proc, data: rawptr}\n\
Context :: struct {allocator, temp_allocator: Allocator, user_ptr: rawptr, user_index: int}\n\
Block :: struct {size, used: int}\n\
Arena :: struct {data: []byte, offset: int}\n\
temp_arena: Arena\n\
\n\
heap_block :: proc \"contextless\" (r: []byte, at: int) -> ^Block {\n\
\treturn cast(^Block)raw_data(r[at:])\n\
}\n\
heap_alloc :: proc \"contextless\" (size: int) -> ([]byte, Allocator_Error) {\n\
\tr := heap_region()\n\
\tfirst := heap_block(r, 0)\n\
\tif first.size == 0 { first.size = len(r) - 16 }\n\
\tif size < 0 || size > len(r) - 16 { return nil, .Out_Of_Memory }\n\
\tneed := max(16, (size + 15) &~ 15)\n\
\tat := 0\n\
\tfor at < len(r) {\n\
\t\tb := heap_block(r, at)\n\
\t\tif b.used == 0 {\n\
\t\t\tnext := at + 16 + b.size\n\
\t\t\tfor next < len(r) && heap_block(r, next).used == 0 {\n\
\t\t\t\tb.size += 16 + heap_block(r, next).size\n\
\t\t\t\tnext = at + 16 + b.size\n\
\t\t\t}\n\
\t\t\tif b.size >= need {\n\
\t\t\t\tif b.size - need >= 32 {\n\
\t\t\t\t\trest := heap_block(r, at + 16 + need)\n\
\t\t\t\t\trest.size = b.size - need - 16\n\
\t\t\t\t\trest.used = 0\n\
\t\t\t\t\tb.size = need\n\
\t\t\t\t}\n\
\t\t\t\tb.used = 1\n\
\t\t\t\tmemory := r[at + 16:at + 16 + size]\n\
\t\t\t\tfor i in 0..<size { memory[i] = 0 }\n\
\t\t\t\treturn memory, .None\n\
\t\t\t}\n\
\t\t}\n\
\t\tat += 16 + b.size\n\
\t}\n\
\treturn nil, .Out_Of_Memory\n\
}\n\
heap_free :: proc \"contextless\" (old: rawptr) -> Allocator_Error {\n\
\tr := heap_region()\n\
\tat := 0\n\
\tfor at < len(r) {\n\
\t\tb := heap_block(r, at)\n\
\t\tif b.size == 0 { break }\n\
\t\tif b.used == 1 && raw_data(r[at + 16:]) == old {\n\
\t\t\tb.used = 0\n\
\t\t\treturn .None\n\
\t\t}\n\
\t\tat += 16 + b.size\n\
\t}\n\
\treturn .Invalid_Pointer\n\
}\n\
heap_allocator_proc :: proc(allocator_data: rawptr, mode: Allocator_Mode, size, alignment: int, old_memory: rawptr, old_size: int, location := #caller_location) -> ([]byte, Allocator_Error) {\n\
\tswitch mode {\n\
\tcase .Alloc:\n\
\t\tif alignment > 16 { return nil, .Invalid_Argument }\n\
\t\treturn heap_alloc(size)\n\
\tcase .Free:\n\
\t\treturn nil, heap_free(old_memory)\n\
\tcase .Resize:\n\
\t\tbytes, err := heap_alloc(size)\n\
\t\tif err != .None { return nil, err }\n\
\t\tif old_memory != nil {\n\
\t\t\tcopy(bytes, byte_slice(old_memory, old_size))\n\
\t\t\theap_free(old_memory)\n\
\t\t}\n\
\t\treturn bytes, .None\n\
\tcase .Free_All, .Query_Features, .Query_Info:\n\
\t}\n\
\treturn nil, .Mode_Not_Implemented\n\
}\n\
arena_alloc :: proc \"contextless\" (a: ^Arena, size, alignment: int) -> ([]byte, Allocator_Error) {\n\
\tif size < 0 || alignment < 1 || alignment & (alignment - 1) != 0 { return nil, .Invalid_Argument }\n\
\tfrom := (a.offset + alignment - 1) &~ (alignment - 1)\n\
\tif from > len(a.data) || size > len(a.data) - from { return nil, .Out_Of_Memory }\n\
\ta.offset = from + size\n\
\tmemory := a.data[from:from + size]\n\
\tfor i in 0..<size { memory[i] = 0 }\n\
\treturn memory, .None\n\
}\n\
arena_allocator_proc :: proc(allocator_data: rawptr, mode: Allocator_Mode, size, alignment: int, old_memory: rawptr, old_size: int, location := #caller_location) -> ([]byte, Allocator_Error) {\n\
\ta := cast(^Arena)allocator_data\n\
\tswitch mode {\n\
\tcase .Alloc:\n\
\t\treturn arena_alloc(a, size, alignment)\n\
\tcase .Resize:\n\
\t\tbytes, err := arena_alloc(a, size, alignment)\n\
\t\tif err != .None { return nil, err }\n\
\t\tif old_memory != nil { copy(bytes, byte_slice(old_memory, old_size)) }\n\
\t\treturn bytes, .None\n\
\tcase .Free_All:\n\
\t\ta.offset = 0\n\
\t\treturn nil, .None\n\
\tcase .Free, .Query_Features, .Query_Info:\n\
\t}\n\
\treturn nil, .Mode_Not_Implemented\n\
}\n\
temp_allocator_proc :: proc(allocator_data: rawptr, mode: Allocator_Mode, size, alignment: int, old_memory: rawptr, old_size: int, location := #caller_location) -> ([]byte, Allocator_Error) {\n\
\tif temp_arena.data == nil { temp_arena.data = temp_region() }\n\
\treturn arena_allocator_proc(&temp_arena, mode, size, alignment, old_memory, old_size, location)\n\
}\n\
default_context :: proc \"contextless\" () -> Context {\n\
\tc: Context\n\
\tc.allocator = Allocator{heap_allocator_proc, nil}\n\
\tc.temp_allocator = Allocator{temp_allocator_proc, nil}\n\
\treturn c\n\
}\n";

/// The one file of `core:mem`: the allocator types under their other names, and the calls of an arena.
pub const MEM: &str = "\
package mem\n\
import \"base:runtime\"\n\
\n\
Allocator :: runtime.Allocator\n\
Allocator_Mode :: runtime.Allocator_Mode\n\
Allocator_Error :: runtime.Allocator_Error\n\
Arena :: runtime.Arena\n\
byte_slice :: runtime.byte_slice\n\
arena_init :: proc \"contextless\" (a: ^Arena, data: []byte) {\n\
\ta.data = data\n\
\ta.offset = 0\n\
}\n\
arena_allocator :: proc \"contextless\" (a: ^Arena) -> Allocator {\n\
\treturn Allocator{runtime.arena_allocator_proc, a}\n\
}\n";
