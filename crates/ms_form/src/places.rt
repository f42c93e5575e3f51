// Where a table has the entry of each user and the list of each access.
ghost use Rattle.std.specs.Prelude.{◌≡◌, ◌<◌, ◌≤◌, ◌+◌, ◌^◌, ◌++◌, ◌∷◌, [], List, ℕ, length, map, Some, OnOk, IfOk, vec_len};
ghost use Rattle.ms_form.specs.Places.{AreWithin, IsPlaced, room_place, user_place, access_place, access_at, operand_users, inst_users_up_to, slots_of};

use crate::access::{Access, User};
use ms_ir::{BlockNo, InstNo, NoMemory};
use std::alloc::Global;

/// The entries of a block: that of its entering access first, then those of its operands.
#[derive(Clone, Copy)]
pub struct Room {
    pub first: usize,
    pub slots: u32,
}

/// The rooms of all blocks, and the user of each place.
#[derive(Drop)]
pub struct Places {
    pub rooms: Vec<Room>,
    pub users: Vec<User>,
}

fn operand_place(room: Room, slot: u32) -> Option<usize>
    requires { room.first + room.slots < 2 ^ 64 }
    ensures { result ≡ room_place (Some room) (Some slot) }
{
    if slot < room.slots {
        Some(room.first + 1 + slot as usize)
    } else {
        None
    }
}

/// Where a user has its entry, with so many instructions from the base on.
pub fn place_of(rooms: &Vec<Room>, base: usize, insts: usize, user: User) -> Option<usize>
    requires within { AreWithin rooms.now.items base }
    requires small { base + insts < 2 ^ 64 }
    ensures { result ≡ user_place rooms.now.items base insts user }
{
    match user {
        User::Inst(i) => {
            if (i.0 as usize) < insts {
                Some(base + i.0 as usize)
            } else {
                None
            }
        }
        User::Operand(b, slot) => {
            if b.0 as usize >= rooms.len() {
                return None;
            }
            operand_place(rooms[b.0 as usize], slot)
        }
        User::Entering(b) => {
            if b.0 as usize >= rooms.len() {
                return None;
            }
            Some(rooms[b.0 as usize].first)
        }
    }
}

/// Which list an access has, with so many blocks and instructions.
pub fn list_of(blocks: usize, insts: usize, access: Access) -> Option<usize>
    requires { blocks + 1 + insts < 2 ^ 64 }
    ensures { result ≡ access_place blocks insts access }
{
    match access {
        Access::Entry => Some(blocks),
        Access::Phi(b) => {
            if (b.0 as usize) < blocks {
                Some(b.0 as usize)
            } else {
                None
            }
        }
        Access::Of(i) => {
            if (i.0 as usize) < insts {
                Some(blocks + 1 + i.0 as usize)
            } else {
                None
            }
        }
    }
}

/// The access of a list.
pub fn access_of(blocks: usize, list: usize) -> Access
    requires blocks { blocks ≤ 2 ^ 32 }
    requires list { list ≤ blocks + 2 ^ 32 }
    ensures { result ≡ access_at blocks list }
{
    if list < blocks {
        Access::Phi(BlockNo(list as u32))
    } else if list == blocks {
        Access::Entry
    } else {
        Access::Of(InstNo((list - (blocks + 1)) as u32))
    }
}

fn push_operands(users: &mut Vec<User>, b: BlockNo, slots: u32) -> Result<(), NoMemory>
    ensures { OnOk result (users.new.items ≡ users.old.items ++ operand_users b slots) }
{
    for slot in 0..slots {
        users.push(User::Operand(b, slot))?;
    }
    Ok(())
}

/// Appends so many instructions.
pub fn push_insts(users: &mut Vec<User>, insts: u32) -> Result<(), NoMemory>
    ensures { OnOk result (users.new.items ≡ users.old.items ++ inst_users_up_to insts) }
{
    for i in 0..insts {
        users.push(User::Inst(InstNo(i)))?;
    }
    Ok(())
}

impl Places {
    // Makes the room of the next block.
    fn push_block(&mut self, slots: u32) -> Result<(), NoMemory>
        requires placed { IsPlaced self.old.rooms.items (length self.old.users.items) self.old.users.items }
        requires few { vec_len self.old.rooms < 2 ^ 32 }
        ensures placed { OnOk result (IsPlaced self.new.rooms.items (length self.new.users.items) self.new.users.items) }
        ensures slots { OnOk result (map slots_of self.new.rooms.items ≡ map slots_of self.old.rooms.items ++ slots ∷ []) }
    {
        let first = self.users.len();
        let b = BlockNo(self.rooms.len() as u32);
        self.users.push(User::Entering(b))?;
        push_operands(&mut self.users, b, slots)?;
        self.rooms.push(Room { first, slots })?;
        Ok(())
    }

    /// A room for each block, by the number of its predecessor slots.
    pub fn of(alloc: Global, counts: &[u32]) -> Result<Places, NoMemory>
        requires { length counts.now < 2 ^ 32 }
        ensures { IfOk result (λ p. IsPlaced p.rooms.items (length p.users.items) p.users.items × (map slots_of p.rooms.items ≡ counts.now)) }
    {
        let mut places = Places {
            rooms: Vec::new(alloc),
            users: Vec::new(alloc),
        };
        for slots in counts {
            places.push_block(*slots)?;
        }
        Ok(places)
    }
}
