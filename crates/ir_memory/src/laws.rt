//! Laws of loads and stores: facts about any memory, proved once.

ghost use Rattle.std.specs.Prelude.{◌≡◌, ℕ, ◌+◌, ◌%◌, ◌^◌, ◌<◌, ◌≤◌, List, length, All};
ghost use Rattle.ir_memory.specs.declared.byte.Byte.{Byte};
ghost use Rattle.ir_memory.specs.declared.loaded.Loaded.{Loaded};
ghost use Rattle.ir_memory.specs.Spelling.{IsAccessWidth, IsNumber, FitsWidth};
ghost use Rattle.ir_memory.specs.Spelling.{byte_count, spelled, number_bytes};
ghost use Rattle.ir_memory.specs.Memory.{Memory, InBlock, AreApart, IsByteOf};
ghost use Rattle.ir_memory.specs.Memory.{block_at, bytes_at, load_of, store_of};

/// What was stored is loaded again at the same place and width, with any choice.
pub fn stored_is_loaded()
    ensures { (memory : Memory) (block offset bits choice : ℕ) (value : Loaded)
        → IsAccessWidth bits → FitsWidth bits value
        → InBlock memory block offset (byte_count bits)
        → load_of (store_of memory block offset bits value) block offset bits choice ≡ value }
{}

/// A store leaves the number of blocks, their sizes and all other bytes as they were, so a load that
/// doesn't overlap it gives the same before and after.
pub fn store_leaves_others()
    ensures blocks { (memory : Memory) (block offset bits : ℕ) (value : Loaded)
        → length (store_of memory block offset bits value) ≡ length memory }
    ensures sizes { (memory : Memory) (block offset bits : ℕ) (value : Loaded)
        → InBlock memory block offset (byte_count bits)
        → (other : ℕ)
        → length (block_at (store_of memory block offset bits value) other)
        ≡ length (block_at memory other) }
    ensures bytes { (memory : Memory) (block offset bits : ℕ) (value : Loaded)
        → InBlock memory block offset (byte_count bits)
        → (other place count : ℕ)
        → AreApart block offset (byte_count bits) other place count
        → bytes_at (store_of memory block offset bits value) other place count
        ≡ bytes_at memory other place count }
    ensures loads { (memory : Memory) (block offset bits : ℕ) (value : Loaded)
        → InBlock memory block offset (byte_count bits)
        → (other place width choice : ℕ)
        → AreApart block offset (byte_count bits) other place (byte_count width)
        → load_of (store_of memory block offset bits value) other place width choice
        ≡ load_of memory other place width choice }
{}

/// A load that meets a poison byte gives poison, whatever the other bytes are.
pub fn poison_is_loaded()
    ensures { (memory : Memory) (block offset bits choice i : ℕ)
        → offset ≤ i → i < offset + byte_count bits
        → IsByteOf memory block i Byte.Poison
        → load_of memory block offset bits choice ≡ Loaded.Poison }
{}

/// A load that meets no poison byte, and one in which nothing was stored, gives the choice as a whole.
pub fn choice_is_loaded()
    ensures { (memory : Memory) (block offset bits choice i : ℕ)
        → ((k : ℕ) → offset ≤ k → k < offset + byte_count bits
        → IsByteOf memory block k Byte.Poison → ⊥)
        → offset ≤ i → i < offset + byte_count bits
        → IsByteOf memory block i Byte.Unwritten
        → load_of memory block offset bits choice ≡ Loaded.Number (choice % 2 ^ bits) }
{}

/// The bytes that a number is stored as spell it, and no others do.
pub fn one_spelling()
    ensures numbers { (count n : ℕ) → All IsNumber (number_bytes count n) }
    ensures count { (count n : ℕ) → length (number_bytes count n) ≡ count }
    ensures spells { (count n : ℕ) → n < 256 ^ count → spelled (number_bytes count n) ≡ n }
    ensures only { (bytes : List Byte)
        → All IsNumber bytes → bytes ≡ number_bytes (length bytes) (spelled bytes) }
{}
