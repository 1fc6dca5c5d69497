// The calls of the hub and of the desk with the totals of busy circuits, their order of arrival,
// and the laws of the group messages: definitions and theorems alone.
#![tactic(auto)]
